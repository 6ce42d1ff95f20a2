#![tactic(auto)]

// The bench's calls on one device where it stands.
ghost use Rattle.std.specs.Prelude.{◌≡◌, cond, ◌&&◌, Err};
ghost use Rattle.device.specs.Ranges.{variant_of, ranged_of};
ghost use Rattle.device.specs.Step.{refusal_code_of, told_of};
ghost use Rattle.record.specs.Record.{code_of};
ghost use Rattle.bench_step.specs.BenchStep.{answer_of, taken_of, from_taken, step_bytes_of, power_on_of};

use device::{Accepted, Device, Refusal};

// A step's code and its two answer bytes. Kept: the C interface has this struct, lm89_answer.
#[repr(C)]
#[derive(Clone, Copy, PartialEq, Eq)]
pub struct Answer {
    pub code: u8,
    pub first: u8,
    pub second: u8,
}

impl From<Result<(u8, u8), Refusal>> for Answer {
    ghost from_gives = { λ stepped answer. answer ≡ answer_of stepped };

    fn from(stepped: Result<(u8, u8), Refusal>) -> Answer {
        match stepped {
            Ok((first, second)) => Answer {
                code: 0,
                first,
                second,
            },
            Err(why) => Answer {
                code: u8::from(why),
                first: 0,
                second: 0,
            },
        }
    }
}

// Bytes that are no event's: a device out of its ranges comes before their own refusal.
fn refused(d: Device, why: record::Refusal) -> Refusal
    ensures { refusal_code_of result ≡ cond (variant_of d.variant && ranged_of d) (code_of (Err why)) 8 }
{
    if device::ranges::in_range(d) {
        return Refusal::from(why);
    }
    Refusal::OutOfRange
}

// One event, given as its record's four bytes, by value. Under a device count of 1 kinds 08 and 09 are refused.
pub fn step_bytes(d: Device, kind: u8, a: u8, b: u8, c: u8) -> Result<Accepted, Refusal>
    ensures told { taken_of (told_of d result) ≡ step_bytes_of d kind a b c }
    ensures same { result ≡ from_taken (step_bytes_of d kind a b c) }
{
    match record::decode(1, kind, a, b, c) {
        Ok(e) => device::step(d, e),
        Err(why) => Err(refused(d, why)),
    }
}

// The same on the device where it stands: the two answer bytes.
pub fn step(d: &mut Device, kind: u8, a: u8, b: u8, c: u8) -> Result<(u8, u8), Refusal>
    ensures { (d.new ≡ (step_bytes_of d.old kind a b c).device) × (answer_of result ≡ (step_bytes_of d.old kind a b c).answer) }
{
    let accepted = step_bytes(*d, kind, a, b, c)?;
    *d = accepted.device;
    Ok((accepted.first, accepted.second))
}

// A device as after power-on, all zeros where the variant is none of 1 to 3. Kept: a call that could not fail still cannot (power_on_of).
#[tactic(auto, unfolding(crate::specs::BenchStep::power_on_of))]
pub fn power_on(variant: u8) -> Device
    ensures { result ≡ power_on_of variant }
{
    if device::ranges::variant(variant) {
        return device::bus::powered(variant);
    }
    Device::default()
}
