#![tactic(auto)]
// The capture's reader: fed in parts of any size, with any room for answers.
ghost use Rattle.std.specs.Prelude.{◌≡◌, true};
ghost use Rattle.capture.specs.Reader.{ranges_of, fresh_of, end_of, finish_of, report_of, FedWith};

use pair::Bus;

mod header;
pub mod ranges;
mod refusal;
mod running;
mod taking;

pub use refusal::Refusal;

// Header bytes taken, record count so far, records done, record bytes carried, a lasting code or 0, and the bus.
// Kept: C has this struct (lm89_reader), with a number for the code.
#[repr(C)]
#[derive(Clone, Copy)]
pub struct Reader {
    pub head: u8,
    pub count: u32,
    pub done: u32,
    pub carried: u8,
    pub bytes: [u8; 3],
    pub held: u8,
    pub bus: Bus,
}

// The state before a byte of the input, in its ranges.
#[derive(Clone, Copy)]
pub struct Ahead {
    pub reader: Reader,
    pub at: usize,
    ghost in_range: { ranges_of reader ≡ true },
}

// What a call reports.
// Kept: C has this struct (lm89_fed), with a number for the code.
#[repr(C)]
#[derive(Clone, Copy)]
pub struct Fed {
    pub consumed: usize,
    pub written: usize,
    pub code: u8,
    pub reader: Reader,
}

// A fresh state, all zeros.
pub fn fresh() -> Reader
    ensures { result ≡ fresh_of }
{
    let absent = device::bus::powered(0);
    Reader {
        head: 0,
        count: 0,
        done: 0,
        carried: 0,
        bytes: [0; 3],
        held: 0,
        bus: Bus {
            devices: 0,
            first: absent,
            second: absent,
        },
    }
}

pub(crate) fn report(code: u8, consumed: usize, written: usize, reader: Reader) -> Fed
    ensures { result ≡ report_of code consumed written reader }
{
    Fed {
        consumed,
        written,
        code,
        reader,
    }
}

// As many bytes of the input as can be, the answers to the front of the lent buffer.
pub fn feed(reader: Reader, input: &[u8], answers: &mut [u8]) -> Fed
    ensures { FedWith reader input.now result answers.old answers.new }
{
    if !ranges::in_range(reader) {
        return report(u8::from(Refusal::Range), 0, 0, reader);
    }
    let mut s = reader;
    let mut at = 0;
    let mut written = 0;
    loop {
        let ahead = taking::lead(Ahead { reader: s, at }, input);
        s = ahead.reader;
        at = ahead.at;
        if (at == input.len()) | (s.held != 0) {
            return report(s.held, at, written, s);
        }
        if answers.len() - written < 2 {
            return running::no_room(ahead, input[at], written);
        }
        let ran = running::run(ahead, input, answers, written);
        if ran.code != 0 {
            return ran;
        }
        s = ran.reader;
        at = ran.consumed;
        written = ran.written;
    }
}

// The finishing code of a state in its ranges: the held one, 6 before the counted end, else 0.
// Kept as a number, here and below: end_of and finish_of say so of every state, and one out of its ranges holds numbers that no refusal has.
pub fn ending(reader: Reader) -> u8
    ensures { result ≡ end_of reader }
{
    if reader.held != 0 {
        return reader.held;
    }
    if header::complete(reader) & (reader.done == reader.count) {
        0
    } else {
        u8::from(Refusal::CutShort)
    }
}

// Asked to finish: 8 for a state out of its ranges, else its finishing code.
pub fn finish(reader: Reader) -> u8
    ensures { result ≡ finish_of reader }
{
    if ranges::in_range(reader) {
        ending(reader)
    } else {
        u8::from(Refusal::Range)
    }
}
