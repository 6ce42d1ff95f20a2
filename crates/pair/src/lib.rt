#![tactic(auto)]
// Request c: one or two devices on one bus, by value.
ghost use Rattle.std.specs.Prelude.{◌≡◌};
ghost use Rattle.pair.specs.Bus.{picked_of, placed_of};

use device::Device;

pub mod hand;
pub mod ranges;
pub mod response;

// How many devices, and the two; a second that is absent is all zeros. Kept: C's struct lm89_bus has these fields.
#[repr(C)]
#[derive(Clone, Copy)]
pub struct Bus {
    pub devices: u8,
    pub first: Device,
    pub second: Device,
}

// The devices that an event names.
#[derive(Clone, Copy, PartialEq, Eq)]
pub enum Named {
    Neither,
    First,
    Second,
    Both,
}

// One of the two: the second, or the first.
pub fn picked(bus: Bus, second: bool) -> Device
    ensures { result ≡ picked_of bus second }
{
    if second { bus.second } else { bus.first }
}

// The bus with another device in that place.
pub fn placed(bus: Bus, second: bool, device: Device) -> Bus
    ensures { result ≡ placed_of bus second device }
{
    if second {
        Bus {
            second: device,
            ..bus
        }
    } else {
        Bus {
            first: device,
            ..bus
        }
    }
}
