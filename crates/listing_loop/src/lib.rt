#![tactic(auto)]
// The listing of a capture, from a reader to a writer.
ghost use Rattle.std.specs.Prelude.{◌≡◌, ◌≤◌, length, OnOk, IfOk, IfErr};
ghost use Rattle.std.specs.Io.KnownBytes.{Appends};
ghost use Rattle.lines_laws.specs.Turns.{read_most, text_room};
ghost use Rattle.listing_loop.specs.declared.Failure.TheVariants.{NotWritten};
ghost use Rattle.listing_loop.specs.List.{totals_of, listed_from, Lists};
ghost use Rattle.listing_loop.specs.Loop.{part_from, PartLaid, GotBytes, Took, Missed, EndWritten};

use capture::Reader;
use std::io::{Read, Write};
use std::ops::ControlFlow;

pub mod steps;

// Bytes read at once, at most.
const READ_MOST: usize = 65536;

// Room for the answers of these and three carried bytes: at most 16,384 records, of two answer bytes each.
const ANSWER_ROOM: usize = 32768;

// Room for the lines of as many records, of at most 17 bytes each.
const TEXT_ROOM: usize = 278528;

// Room for the end line.
const END_ROOM: usize = 17;

// Why there is no whole listing, by the numbers that C gets.
#[derive(Clone, Copy, PartialEq, Eq)]
pub enum Failure {
    NotRead = 1,
    NotWritten = 2,
}

// What a whole listing tells: bytes of the capture taken, records done and the finishing code.
#[derive(Clone, Copy, PartialEq, Eq)]
pub struct Totals {
    pub consumed: u64,
    pub done: u32,
    pub code: u8,
}

impl Totals {
    // Of the reader that the turns leave.
    pub fn new(last: Reader, code: u8) -> Totals
        ensures { result ≡ totals_of last code }
    {
        Totals {
            consumed: u64::from(last.head) + u64::from(last.done) * 4 + u64::from(last.carried),
            done: last.done,
            code,
        }
    }
}

// The lines that are laid of a part: the reader after them, from which another turn may follow or none, and how many bytes of text.
#[derive(Drop)]
struct PartLines {
    next: ControlFlow<Reader, Reader>,
    size: usize,
}

// Feeds a part and lays its lines; there is room for all of them.
fn lay_part(reader: Reader, part: &[u8], text: &mut [u8]) -> PartLines
    requires { (length part.now ≤ read_most) × (text_room ≤ length text.old) }
    ensures { PartLaid reader part.now (part_from result) text.old text.new }
{
    let mut answers = [0; ANSWER_ROOM];
    let fed = capture::feed(reader, part, &mut answers);
    let first = reader.done.wrapping_add(1);
    let size = lines::record_lines(&answers[..fed.written], first, text);
    let next = if !part.is_empty() & (fed.code == 0) {
        ControlFlow::Continue(fed.reader)
    } else {
        ControlFlow::Break(fed.reader)
    };
    PartLines { next, size }
}

// One read: how many bytes it put to the front of the buffer.
fn get<R: Read>(input: &mut R, buffer: &mut [u8; READ_MOST]) -> Result<usize, Failure>
    ensures { GotBytes (R.remaining input.old) (R.remaining input.new) result buffer.new }
{
    input.read(buffer).map_err(|_| Failure::NotRead)
}

// Writes all of the text. A text of no bytes makes no call; a write that fails, or that takes no byte, is the last.
// Kept as a loop: `write_all` would write again after a write that a signal interrupted, which is a failure here.
fn put<W: Write>(output: &mut W, text: &[u8]) -> Result<(), Failure>
    ensures ok { OnOk result (Appends (W.contents output.old) (W.contents output.new) text.now) }
    ensures err { IfErr result (λ e. e ≡ NotWritten) }
{
    let mut rest = text;
    while !rest.is_empty() {
        match output.write(rest) {
            Ok(count) if count > 0 => rest = &rest[count..],
            _ => return Err(Failure::NotWritten),
        }
    }
    Ok(())
}

// Reads once, and writes the lines of what came: the reader after it, from which another turn follows or none.
fn turn<R: Read, W: Write>(
    input: &mut R,
    output: &mut W,
    reader: Reader,
) -> Result<ControlFlow<Reader, Reader>, Failure>
    ensures ok { IfOk result (Took reader (R.remaining input.old) (R.remaining input.new) (W.contents output.old) (W.contents output.new)) }
    ensures err { IfErr result (Missed (R.remaining input.old) (R.remaining input.new) (W.contents output.old) (W.contents output.new)) }
{
    let mut buffer = [0; READ_MOST];
    let mut text = [0; TEXT_ROOM];
    let count = get(input, &mut buffer)?;
    let lines = lay_part(reader, &buffer[..count], &mut text);
    put(output, &text[..lines.size])?;
    Ok(lines.next)
}

// Writes the end line.
fn end<W: Write>(output: &mut W, last: Reader) -> Result<Totals, Failure>
    ensures ok { IfOk result (EndWritten last (W.contents output.old) (W.contents output.new)) }
    ensures err { IfErr result (λ e. e ≡ NotWritten) }
{
    let mut text = [0; END_ROOM];
    let code = capture::finish(last);
    let size = lines::end_line(last.done, code, &mut text).unwrap_or(0);
    put(output, &text[..size])?;
    Ok(Totals::new(last, code))
}

// Reads a capture to its end or to the first refused byte, and writes its listing.
pub fn list<R: Read, W: Write>(input: &mut R, output: &mut W) -> Result<Totals, Failure>
    ensures { Lists (listed_from result) }
{
    let mut reader = capture::fresh();
    loop {
        match turn(input, output, reader)? {
            ControlFlow::Continue(next) => reader = next,
            ControlFlow::Break(last) => return end(output, last),
        }
    }
}
