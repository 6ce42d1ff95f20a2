#![tactic(auto)]

// The bench's call on a whole capture.
ghost use Rattle.std.specs.Prelude.{◌≡◌};
ghost use Rattle.bench.specs.Bench.{last_of, RanWhole};

use capture::Reader;

// The reader's code if not 0, else the finishing one. Kept as a number: so it stands in C's lm89_fed, and lm89_run tells it so.
fn last_code(code: u8, reader: Reader) -> u8
    ensures { result ≡ last_of code reader }
{
    if code == 0 {
        capture::ending(reader)
    } else {
        code
    }
}

// A whole capture and an answer buffer: sixteen times the answer bytes written, plus the code.
// Kept as one number: the form that docs/STATEMENTS.md names.
pub fn run(bytes: &[u8], answers: &mut [u8]) -> u64
    ensures { RanWhole bytes.now result answers.old answers.new }
{
    let fed = capture::feed(capture::fresh(), bytes, answers);
    let last = last_code(fed.code, fed.reader);
    fed.written as u64 * 16 + u64::from(last)
}
