// The listing in steps, for a caller from C that reads and writes by itself: what C gets and gives back, and all between a read and a write.
// Kept: the C interface (c/list.c, include/lm89_list.h) has these structs, their failures as numbers and their flags.
ghost use Rattle.std.specs.Prelude.{◌≡◌, ◌≤◌, length};
ghost use Rattle.lines_laws.specs.Turns.{read_most, text_room};
ghost use Rattle.listing_loop.specs.List.{failure_of, failed_of, listed_from};
ghost use Rattle.listing_loop.specs.Loop.{part_from, ReadLaid, wrote_of, ended_of, EndLaid};

use super::{END_ROOM, Failure, PartLines, READ_MOST, TEXT_ROOM, Totals, lay_part};
use capture::Reader;
use std::ops::ControlFlow;

// The number of a failure where there is none.
const WHOLE: u8 = 0;

impl From<Failure> for u8 {
    ghost from_gives = { λ f n. n ≡ failure_of f };

    fn from(failure: Failure) -> u8 {
        failure as u8
    }
}

// How a listing ended. Where it is not whole, the three other numbers are 0.
#[repr(C)]
#[derive(Clone, Copy)]
pub struct Listed {
    pub consumed: u64,
    pub done: u32,
    pub code: u8,
    pub failure: u8,
}

impl From<Result<Totals, Failure>> for Listed {
    ghost from_gives = { λ r l. l ≡ listed_from r };

    fn from(outcome: Result<Totals, Failure>) -> Listed {
        match outcome {
            Ok(totals) => Listed {
                consumed: totals.consumed,
                done: totals.done,
                code: totals.code,
                failure: WHOLE,
            },
            Err(failure) => failed(failure.into()),
        }
    }
}

// What is laid of a read: the reader after it, why there is no part, whether another may follow, and how many bytes of text.
#[repr(C)]
#[derive(Clone, Copy)]
pub struct Part {
    pub reader: Reader,
    pub failure: u8,
    pub more: bool,
    pub size: usize,
}

impl From<PartLines> for Part {
    ghost from_gives = { λ l p. p ≡ part_from l };

    fn from(lines: PartLines) -> Part {
        let (reader, more) = match lines.next {
            ControlFlow::Continue(reader) => (reader, true),
            ControlFlow::Break(reader) => (reader, false),
        };
        Part {
            reader,
            failure: WHOLE,
            more,
            size: lines.size,
        }
    }
}

// The reader after a turn, why the turn failed, and whether another follows.
#[repr(C)]
#[derive(Clone, Copy)]
pub struct Went {
    pub reader: Reader,
    pub failure: u8,
    pub goes: bool,
}

// The end line that is laid: how many bytes of text, and the finishing code.
#[repr(C)]
#[derive(Clone, Copy)]
pub struct EndLine {
    pub size: usize,
    pub code: u8,
}

// A turn's buffers: what is read at once, and the text of its lines.
#[repr(C)]
pub struct Page {
    pub buffer: [u8; READ_MOST],
    pub text: [u8; TEXT_ROOM],
}

// Room for the end line.
#[repr(C)]
pub struct LastPage {
    pub text: [u8; END_ROOM],
}

// Lays what a read of C gave: -1, or how many bytes it put to the front of the buffer.
fn lay(reader: Reader, got: isize, buffer: &[u8], text: &mut [u8]) -> Part
    requires { (length buffer.now ≤ read_most) × (text_room ≤ length text.old) }
    ensures { ReadLaid reader got buffer.now result text.old text.new }
{
    match usize::try_from(got) {
        Ok(count) => lay_part(reader, &buffer[..count.min(buffer.len())], text).into(),
        Err(_) => Part {
            reader,
            failure: Failure::NotRead.into(),
            more: false,
            size: 0,
        },
    }
}

// What a turn lays of a read, in buffers that fit.
pub fn lay_page(reader: Reader, got: isize, page: &mut Page) -> Part
    ensures laid { ReadLaid reader got page.old.buffer result page.old.text page.new.text }
    ensures buffer { page.new.buffer ≡ page.old.buffer }
{
    lay(reader, got, &page.buffer, &mut page.text)
}

// What becomes of a turn, by whether its lines were written: a part whose lines could not be is the last.
pub fn wrote(part: Part, written: bool) -> Went
    ensures { result ≡ wrote_of part written }
{
    let (failure, goes) = if written {
        (part.failure, part.more)
    } else {
        (Failure::NotWritten.into(), false)
    };
    Went {
        reader: part.reader,
        failure,
        goes,
    }
}

// The end line.
pub fn lay_last(reader: Reader, page: &mut LastPage) -> EndLine
    ensures { EndLaid reader result page.old.text page.new.text }
{
    let code = capture::finish(reader);
    let size = lines::end_line(reader.done, code, &mut page.text).unwrap_or(0);
    EndLine { size, code }
}

// What becomes of the listing, by whether its end line was written: one whose end line could not be is not whole.
pub fn ended(reader: Reader, code: u8, written: bool) -> Listed
    ensures { result ≡ ended_of reader code written }
{
    if written {
        Listed::from(Ok(Totals::new(reader, code)))
    } else {
        failed(Failure::NotWritten.into())
    }
}

// A listing that failed tells why, and nothing else.
pub fn failed(failure: u8) -> Listed
    ensures { result ≡ failed_of failure }
{
    Listed {
        consumed: 0,
        done: 0,
        code: 0,
        failure,
    }
}
