// The header of the capture that a state is in.
ghost use Rattle.std.specs.Prelude.{◌≡◌, leb};
ghost use Rattle.pair.specs.Bus.{count_place, header_length};
ghost use Rattle.capture.specs.Reader.{header_length_of, in_header, header_done};

use super::Reader;
use pair::Bus;

// The bytes before the record count: the device count and a variant for each device.
pub(crate) fn count_place(bus: Bus) -> u16
    ensures { result ≡ count_place bus }
{
    1 + u16::from(bus.devices)
}

fn length(bus: Bus) -> u16
    ensures { result ≡ header_length bus }
{
    count_place(bus) + 4
}

pub(crate) fn taken(s: Reader) -> u16
    ensures { result ≡ s.head }
{
    u16::from(s.head)
}

// Bytes of it are still to come.
pub(crate) fn ahead(s: Reader) -> bool
    ensures { result ≡ in_header s }
{
    taken(s) < length(s.bus)
}

pub(crate) fn complete(s: Reader) -> bool
    ensures { result ≡ header_done s }
{
    taken(s) == length(s.bus)
}

// No byte beyond it.
pub(crate) fn within(s: Reader) -> bool
    ensures { result ≡ leb s.head (header_length_of s) }
{
    taken(s) <= length(s.bus)
}
