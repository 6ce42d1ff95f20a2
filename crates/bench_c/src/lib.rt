#![tactic(auto)]
// The bench's call on a whole capture, for C.
ghost use Rattle.bench.specs.Bench.{RanWhole};

// A whole capture and an answer buffer: sixteen times the answer bytes written, plus the code.
#[unsafe(no_mangle)]
pub extern "C" fn lm89_run(bytes: &[u8], answers: &mut [u8]) -> u64
    ensures { RanWhole bytes.now result answers.old answers.new }
{
    bench::run(bytes, answers)
}
