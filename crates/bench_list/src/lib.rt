#![tactic(auto)]
// The listing of a capture, for C. c/list.c reads from one file descriptor and writes to another; all between a read and a write is here.
ghost use Rattle.std.specs.Prelude.{◌≡◌};
ghost use Rattle.capture.specs.Reader.{fresh_of};
ghost use Rattle.listing_loop.specs.List.{failed_of, Lists};
ghost use Rattle.listing_loop.specs.Loop.{ReadLaid, wrote_of, ended_of, EndLaid};

use capture::Reader;
use listing_loop::steps;
use listing_loop::steps::{EndLine, LastPage, Listed, Page, Part, Went};
use std::io::{Read, Write};

// To the end of the input or to the first refused byte, from a reader to a writer.
pub fn lm89_list<R: Read, W: Write>(input: &mut R, output: &mut W) -> Listed
    ensures { Lists result }
{
    listing_loop::list(input, output).into()
}

// A reader before its first byte.
#[unsafe(no_mangle)]
pub extern "C" fn lm89_list_fresh() -> Reader
    ensures { result ≡ fresh_of }
{
    capture::fresh()
}

// What is laid of a read that answered -1, or how many bytes it put to the front of the buffer.
#[unsafe(no_mangle)]
pub extern "C" fn lm89_list_lay(reader: Reader, got: isize, page: &mut Page) -> Part
    ensures laid { ReadLaid reader got page.old.buffer result page.old.text page.new.text }
    ensures buffer { page.new.buffer ≡ page.old.buffer }
{
    steps::lay_page(reader, got, page)
}

// Whether another turn follows, by whether the text of this one was written.
#[unsafe(no_mangle)]
pub extern "C" fn lm89_list_wrote(part: Part, written: bool) -> Went
    ensures { result ≡ wrote_of part written }
{
    steps::wrote(part, written)
}

// The end line.
#[unsafe(no_mangle)]
pub extern "C" fn lm89_list_lay_end(reader: Reader, page: &mut LastPage) -> EndLine
    ensures { EndLaid reader result page.old.text page.new.text }
{
    steps::lay_last(reader, page)
}

// How the listing ended, by whether its end line was written.
#[unsafe(no_mangle)]
pub extern "C" fn lm89_list_ended(reader: Reader, code: u8, written: bool) -> Listed
    ensures { result ≡ ended_of reader code written }
{
    steps::ended(reader, code, written)
}

// After a turn that failed.
#[unsafe(no_mangle)]
pub extern "C" fn lm89_list_failed(failure: u8) -> Listed
    ensures { result ≡ failed_of failure }
{
    steps::failed(failure)
}
