#![tactic(auto)]
// The reader for C: a capture in parts of any size, with any room for answers.
ghost use Rattle.std.specs.Prelude.{◌≡◌};
ghost use Rattle.capture.specs.Reader.{fresh_of, finish_of, FedWith};

use capture::{Fed, Reader};

// A reader before its first byte.
#[unsafe(no_mangle)]
pub extern "C" fn lm89_fresh() -> Reader
    ensures { result ≡ fresh_of }
{
    bench_feed::fresh()
}

// The next part, and room for its answers.
#[unsafe(no_mangle)]
pub extern "C" fn lm89_feed(reader: Reader, input: &[u8], answers: &mut [u8]) -> Fed
    ensures { FedWith reader input.now result answers.old answers.new }
{
    bench_feed::feed(reader, input, answers)
}

// Asked at the end of the capture.
#[unsafe(no_mangle)]
pub extern "C" fn lm89_finish(reader: Reader) -> u8
    ensures { result ≡ finish_of reader }
{
    bench_feed::finish(reader)
}
