#![tactic(auto)]
// The bench's calls on one device where it stands, for C.
ghost use Rattle.std.specs.Prelude.{◌≡◌};
ghost use Rattle.bench_step.specs.BenchStep.{step_bytes_of, power_on_of};

use bench_step::Answer;
use device::Device;

// One event, given as its record's four bytes, on the device where it stands: 8, then 3, then 4, else 0.
#[unsafe(no_mangle)]
pub extern "C" fn lm89_step(d: &mut Device, kind: u8, a: u8, b: u8, c: u8) -> Answer
    ensures { (d.new ≡ (step_bytes_of d.old kind a b c).device) × (result ≡ (step_bytes_of d.old kind a b c).answer) }
{
    Answer::from(bench_step::step(d, kind, a, b, c))
}

// A device as after power-on, all zeros where the variant is none of 1 to 3.
#[unsafe(no_mangle)]
pub extern "C" fn lm89_power_on(variant: u8) -> Device
    ensures { result ≡ power_on_of variant }
{
    bench_step::power_on(variant)
}
