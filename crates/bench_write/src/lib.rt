#![tactic(auto)]

// Writing a capture: its header, and events as their records' four bytes.
ghost use Rattle.record.specs.Writer.{write_code_of, WroteHeader, WroteHeader2};
ghost use Rattle.bench_write.specs.BenchWrite.{WroteBytes};

use record::WriteRefusal;

// An event, given as its record's four bytes and judged as under a device count of 2, to the front of the room: Kind, then Operand, then Room.
pub fn write_event(kind: u8, a: u8, b: u8, c: u8, room: &mut [u8]) -> Result<(), WriteRefusal>
    ensures { WroteBytes kind a b c (write_code_of result) room.old room.new }
{
    let e = record::decode(2, kind, a, b, c)?;
    record::write_event(e, room)
}

// The header of a capture of one device to the front of the room: Variant, then Room.
pub fn write_header(variant: u8, count: u32, room: &mut [u8]) -> Result<(), WriteRefusal>
    ensures { WroteHeader variant count (write_code_of result) room.old room.new }
{
    record::write_header(variant, count, room)
}

// The header of a capture of two devices: Variant, then OneAddress, then Room.
pub fn write_header_2(
    first: u8,
    second: u8,
    count: u32,
    room: &mut [u8],
) -> Result<(), WriteRefusal>
    ensures { WroteHeader2 first second count (write_code_of result) room.old room.new }
{
    record::write_header_2(first, second, count, room)
}
