// The ranges of a bus, with so many of the capture's header bytes taken.
ghost use Rattle.std.specs.Prelude.{◌≡◌};
ghost use Rattle.pair.specs.Ranges.{absent_of, count_test, bus_ranges_of};

use super::Bus;
use device::Device;

// All zeros.
fn absent(d: Device) -> bool
    ensures { result ≡ absent_of d }
{
    d == device::bus::powered(0)
}

// No device with no header byte taken, else one or two.
fn counted(head: u8, devices: u8) -> bool
    ensures { result ≡ count_test head devices }
{
    if head == 0 {
        return devices == 0;
    }
    (devices == 1) | (devices == 2)
}

// The device count; the first device in its ranges, the second once its variant is taken, and until or without that all zeros.
pub fn ranges(head: u8, bus: Bus) -> bool
    ensures { result ≡ bus_ranges_of head bus }
{
    let f = bus.first;
    let s = bus.second;
    let taken = (bus.devices == 2) & (3 <= head);
    device::ranges::all(&[
        counted(head, bus.devices),
        (head < 2) | device::ranges::variant(f.variant),
        device::ranges::ranged(f),
        !taken | device::ranges::variant(s.variant),
        !taken | (registers::address(f.variant) != registers::address(s.variant)),
        !taken | device::ranges::ranged(s),
        taken | absent(s),
    ])
}
