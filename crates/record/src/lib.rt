#![tactic(auto)]
// Records: four bytes to an event or a refusal, and back; the header's six or seven bytes.
ghost use Rattle.std.specs.Prelude.{◌≡◌, [], ◌∷◌, length};
ghost use Rattle.record.specs.Record.{decode_of, admit_of, last_kind_of, encode_of};
ghost use Rattle.record.specs.Writer.{Wrote, fitting_of, count_bytes_of, header_of, one_address_of, write_code_of, WroteEvent, WroteHeader, WroteHeader2};

use device::Event;

mod kind;
mod refusal;

pub use kind::Kind;
pub use refusal::{Refusal, WriteRefusal, code, write_code};

fn admit(good: bool, e: Event) -> Result<Event, Refusal>
    ensures { result ≡ admit_of good e }
{
    if good { Ok(e) } else { Err(Refusal::Operand) }
}

// Under a device count of 2 the kinds 08 and 09 follow 07.
fn last_kind(devices: u8) -> u8
    ensures { result ≡ last_kind_of devices }
{
    if devices == 2 {
        Kind::OpenSecond as u8
    } else {
        Kind::PowerOn as u8
    }
}

// A record's four bytes, under a device count.
// Kept as four numbers, as C gives them (lm89_step, lm89_write_event) and as the table of kinds names them.
pub fn decode(devices: u8, kind: u8, a: u8, b: u8, c: u8) -> Result<Event, Refusal>
    ensures { result ≡ decode_of devices kind a b c }
{
    if last_kind(devices) < kind {
        return Err(Refusal::Kind);
    }
    match Kind::try_from(kind)? {
        Kind::Write => admit(a <= 0x7F, Event::Write(a, b, c)),
        Kind::Read => admit((a <= 0x7F) & (c == 0), Event::Read(a, b)),
        Kind::Send => admit((a <= 0x7F) & (c == 0), Event::Send(a, b)),
        Kind::Receive => admit((a <= 0x7F) & ((b == 0) & (c == 0)), Event::Receive(a)),
        Kind::Convert => admit(c % 32 == 0, Event::Convert(a, b, c)),
        Kind::Open => admit((b == 0) & (c == 0), Event::Open(a)),
        Kind::PowerOn => admit((a == 0) & ((b == 0) & (c == 0)), Event::PowerOn),
        Kind::ConvertSecond => admit(c % 32 == 0, Event::ConvertSecond(a, b, c)),
        Kind::OpenSecond => admit((b == 0) & (c == 0), Event::OpenSecond(a)),
    }
}

// The event's record, whatever its operands.
pub fn encode(e: Event) -> [u8; 4]
    ensures { result ≡ encode_of e }
{
    match e {
        Event::Write(a, b, c) => [Kind::Write as u8, a, b, c],
        Event::Read(a, b) => [Kind::Read as u8, a, b, 0],
        Event::Send(a, b) => [Kind::Send as u8, a, b, 0],
        Event::Receive(a) => [Kind::Receive as u8, a, 0, 0],
        Event::Convert(a, b, c) => [Kind::Convert as u8, a, b, c],
        Event::Open(a) => [Kind::Open as u8, a, 0, 0],
        Event::PowerOn => [Kind::PowerOn as u8, 0, 0, 0],
        Event::ConvertSecond(a, b, c) => [Kind::ConvertSecond as u8, a, b, c],
        Event::OpenSecond(a) => [Kind::OpenSecond as u8, a, 0, 0],
    }
}

// The bytes to the front of the room, if they fit.
fn put(bytes: &[u8], room: &mut [u8]) -> Result<(), WriteRefusal>
    ensures { Wrote (fitting_of (length bytes.now) (length room.old) bytes.now) (write_code_of result) room.old room.new }
{
    let size = bytes.len();
    if room.len() < size {
        return Err(WriteRefusal::Room);
    }
    room[..size].copy_from_slice(bytes);
    Ok(())
}

// The event's four bytes to the front of the room: Operand for one outside the table, then Room for fewer than four bytes.
pub fn write_event(e: Event, room: &mut [u8]) -> Result<(), WriteRefusal>
    ensures { WroteEvent e (write_code_of result) room.old room.new }
{
    if !device::ranges::operands(e) {
        return Err(WriteRefusal::Operand);
    }
    put(&encode(e), room)
}

fn count_bytes(count: u32) -> [u8; 4]
    ensures { result ≡ count_bytes_of count }
{
    count.to_be_bytes()
}

// Kept as two: functions for two sizes, since no const parameter is computed from another.
fn header(variant: u8, count: u32) -> [u8; 6]
    ensures { result ≡ header_of (variant ∷ []) count }
{
    let n = count_bytes(count);
    [1, variant, n[0], n[1], n[2], n[3]]
}

fn header_2(first: u8, second: u8, count: u32) -> [u8; 7]
    ensures { result ≡ header_of (first ∷ second ∷ []) count }
{
    let n = count_bytes(count);
    [2, first, second, n[0], n[1], n[2], n[3]]
}

// A header of one device to the front of the room: Variant for one other than 1 to 3, then Room for fewer than six bytes.
pub fn write_header(variant: u8, count: u32, room: &mut [u8]) -> Result<(), WriteRefusal>
    ensures { WroteHeader variant count (write_code_of result) room.old room.new }
{
    if !device::ranges::variant(variant) {
        return Err(WriteRefusal::Variant);
    }
    put(&header(variant, count), room)
}

fn one_address(first: u8, second: u8) -> bool
    ensures { result ≡ one_address_of first second }
{
    registers::address(first) == registers::address(second)
}

// A header of two devices: Variant for one other than 1 to 3, then OneAddress where both have one, then Room for fewer than seven bytes.
pub fn write_header_2(
    first: u8,
    second: u8,
    count: u32,
    room: &mut [u8],
) -> Result<(), WriteRefusal>
    ensures { WroteHeader2 first second count (write_code_of result) room.old room.new }
{
    if !(device::ranges::variant(first) & device::ranges::variant(second)) {
        return Err(WriteRefusal::Variant);
    }
    if one_address(first, second) {
        return Err(WriteRefusal::OneAddress);
    }
    put(&header_2(first, second, count), room)
}
