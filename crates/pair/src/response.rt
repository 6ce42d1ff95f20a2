// P9 and request c: who answers an alert response.
ghost use Rattle.std.specs.Prelude.{◌≡◌};
ghost use Rattle.std.specs.Int.Count.{count_trailing_zeros};
ghost use Rattle.pair.specs.Bus.{respondent_of};
ghost use Rattle.pair.specs.Mask.{mask_of, at_bit};

use super::{Bus, Named};

// The bits of the mask, by address.
const LOWER: u8 = 0x01;

const HIGHER: u8 = 0x02;

// The devices that P9 lets answer.
fn mask(low: bool, high: bool) -> u8
    ensures { result ≡ mask_of low high }
{
    conversion::bit(low, LOWER) | conversion::bit(high, HIGHER)
}

// The device at the mask's lowest set bit. Kept: the form that docs/STATEMENTS.md names.
fn lowest(mask: u8, low: Named, high: Named) -> Named
    ensures { result ≡ at_bit (count_trailing_zeros 8 mask) low high }
{
    match mask.trailing_zeros() {
        0 => low,
        1 => high,
        _ => Named::Neither,
    }
}

// The alerting device with the lowest address.
pub fn respondent(bus: Bus) -> Named
    ensures { result ≡ respondent_of bus }
{
    let first = device::bus::responds(bus.first);
    let second = device::bus::responds(bus.second);
    if registers::address(bus.first.variant) < registers::address(bus.second.variant) {
        lowest(mask(first, second), Named::First, Named::Second)
    } else {
        lowest(mask(second, first), Named::Second, Named::First)
    }
}
