#![tactic(auto)]
// Writing a capture, for C: its header, and events as their records' four bytes.
ghost use Rattle.record.specs.Writer.{WroteHeader, WroteHeader2};
ghost use Rattle.bench_write.specs.BenchWrite.{WroteBytes};

// An event, given as its record's four bytes and judged as under a device count of 2, to the front of the room: 3, then 4, then 7, else 0.
#[unsafe(no_mangle)]
pub extern "C" fn lm89_write_event(kind: u8, a: u8, b: u8, c: u8, room: &mut [u8]) -> u8
    ensures { WroteBytes kind a b c result room.old room.new }
{
    record::write_code(bench_write::write_event(kind, a, b, c, room))
}

// The header of a capture of one device to the front of the room: 2, then 7, else 0.
#[unsafe(no_mangle)]
pub extern "C" fn lm89_write_header(variant: u8, count: u32, room: &mut [u8]) -> u8
    ensures { WroteHeader variant count result room.old room.new }
{
    record::write_code(bench_write::write_header(variant, count, room))
}

// The header of a capture of two devices: 2, then 9, then 7, else 0.
#[unsafe(no_mangle)]
pub extern "C" fn lm89_write_header_2(first: u8, second: u8, count: u32, room: &mut [u8]) -> u8
    ensures { WroteHeader2 first second count result room.old room.new }
{
    record::write_code(bench_write::write_header_2(first, second, count, room))
}
