#![tactic(auto)]
// The reader: a capture in parts of any size, with any room for answers.
ghost use Rattle.std.specs.Prelude.{◌≡◌};
ghost use Rattle.capture.specs.Reader.{fresh_of, finish_of, FedWith};

use capture::{Fed, Reader};

// A reader before its first byte.
pub fn fresh() -> Reader
    ensures { result ≡ fresh_of }
{
    capture::fresh()
}

// The next part, and room for its answers.
pub fn feed(reader: Reader, input: &[u8], answers: &mut [u8]) -> Fed
    ensures { FedWith reader input.now result answers.old answers.new }
{
    capture::feed(reader, input, answers)
}

// Asked at the end of the capture.
pub fn finish(reader: Reader) -> u8
    ensures { result ≡ finish_of reader }
{
    capture::finish(reader)
}
