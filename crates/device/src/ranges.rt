// A state's ranges, of the device's part, and an event's operands.
ghost use Rattle.std.specs.Prelude.{◌≡◌, ◌&&◌, eqb};
ghost use Rattle.std.specs.Int.Bits.{bit_and};
ghost use Rattle.device.specs.Ranges.{all_true, variant_of, masks_of, ranged_of, operands_of, second_of};

use super::{Device, Event, bus};
use registers::bits;

const HIGHEST_ADDRESS: u8 = 0x7F;

// 1 to 3.
#[tactic(auto, unfolding(crate::specs::Ranges::variant_of))]
pub fn variant(v: u8) -> bool
    ensures { result ≡ variant_of v }
{
    (1 <= v) & (v <= 3)
}

// Every test holds.
pub fn all(tests: &[bool]) -> bool
    ensures { result ≡ all_true tests.now }
{
    tests.iter().all(|&test| test)
}

// The byte has no bit but those kept.
fn keeps(byte: u8, kept: u8) -> bool
    ensures { result ≡ eqb (bit_and byte kept) byte }
{
    byte & kept == byte
}

// No register byte has a bit that its register drops; the other eight keep all.
#[tactic(auto, unfolding(crate::specs::Ranges::masks_of))]
fn masks(s: [u8; 14]) -> bool
    ensures { result ≡ masks_of s }
{
    all(&[
        keeps(s[registers::CONFIGURATION], bits::CONFIGURATION_KEPT),
        keeps(s[registers::OFFSET_PART], bits::FRACTION_KEPT),
        keeps(s[registers::REMOTE_HIGH_PART], bits::FRACTION_KEPT),
        keeps(s[registers::REMOTE_LOW_PART], bits::FRACTION_KEPT),
        keeps(s[registers::HYSTERESIS], bits::HYSTERESIS_KEPT),
        keeps(s[registers::FILTER_ALERT], bits::FILTER_ALERT_KEPT),
    ])
}

// Every range but the variant's.
#[tactic(auto, unfolding(crate::specs::Ranges::ranged_of))]
pub fn ranged(d: Device) -> bool
    ensures { result ≡ ranged_of d }
{
    let s = d.sensed;
    all(&[
        s.faults <= 3,
        temperature::LOWEST <= s.remote,
        s.remote <= temperature::HIGHEST,
        registers::known(d.pointer),
        d.status < bits::BUSY,
        s.live < bits::BUSY,
        masks(d.settings),
        !d.pending | bus::configured(d.settings, bits::STANDBY),
        d.low % 32 == 0,
        d.lowkept | (d.low == 0),
    ])
}

// Every range.
pub fn in_range(d: Device) -> bool
    ensures { result ≡ (variant_of d.variant && ranged_of d) }
{
    variant(d.variant) & ranged(d)
}

// Addresses at most 7Fh, a remote low byte that is a multiple of 32.
#[tactic(auto, unfolding(crate::specs::Ranges::operands_of))]
pub fn operands(e: Event) -> bool
    ensures { result ≡ operands_of e }
{
    match e {
        Event::Write(address, _, _)
        | Event::Read(address, _)
        | Event::Send(address, _)
        | Event::Receive(address) => address <= HIGHEST_ADDRESS,
        Event::Convert(_, _, low) | Event::ConvertSecond(_, _, low) => low % 32 == 0,
        Event::Open(_) | Event::PowerOn | Event::OpenSecond(_) => true,
    }
}

// Kinds 08 and 09.
#[tactic(auto, unfolding(crate::specs::Ranges::second_of))]
pub fn second(e: Event) -> bool
    ensures { result ≡ second_of e }
{
    matches!(e, Event::ConvertSecond(_, _, _) | Event::OpenSecond(_))
}
