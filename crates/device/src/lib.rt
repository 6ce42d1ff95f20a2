#![tactic(auto)]
// The register machine: one device, one event, by value.
ghost use Rattle.std.specs.Prelude.{◌≡◌};
ghost use Rattle.device.specs.Step.{effect_of, answer_of, refusal_code_of, told_of, from_told, step_of};
ghost use Rattle.device.specs.Asking.{done_of};

use conversion::Sensed;
use temperature::Reading;

pub mod bus;
pub mod outputs;
pub mod ranges;

// The fourteen settings stand in rising order of their write addresses; `low` is the byte kept at a read of 01, if one is.
// Kept: the C interface (struct lm89_device) has these fields, with the variant as a number and `lowkept` beside `low`.
#[repr(C)]
#[derive(Clone, Copy, Default, PartialEq, Eq)]
pub struct Device {
    pub sensed: Sensed,
    pub variant: u8,
    pub pointer: u8,
    pub pending: bool,
    pub status: u8,
    pub settings: [u8; 14],
    pub low: u8,
    pub lowkept: bool,
}

// Address, register and value; local byte, remote high and low byte: raw, as in a record. The last two are conversions of a bus's second device.
// Kept: 08 and 09 are kinds of their own in the table of kinds, by which the definitions (effect_of, second_of) go.
#[derive(Clone, Copy, PartialEq, Eq)]
pub enum Event {
    Write(u8, u8, u8),
    Read(u8, u8),
    Send(u8, u8),
    Receive(u8),
    Convert(u8, u8, u8),
    Open(u8),
    PowerOn,
    ConvertSecond(u8, u8, u8),
    OpenSecond(u8),
}

// What an event asks of the device at hand. Sense: local byte, remote reading in eighths and whether it was held (a struct in the enum is slower), diode open.
// Kept as a switch: each large function has one call site so, and is inlined there; with a call in each event's arm a record takes up to three times as long.
#[derive(Clone, Copy)]
pub enum Asked {
    Put(u8, u8),
    Get(u8),
    Point(u8),
    Respond,
    Sense(u8, i16, bool, bool),
    Restart,
    Nothing,
}

// What an event does: a conversion taken, its reading held; the device after it; acknowledged, and the byte read or 0. In the fastest order.
// Kept as flags: bits D2 to D4 of the first answer byte are these three, and the laws Responds and StatusRead speak of each.
#[derive(Clone, Copy)]
pub struct Outcome {
    pub taken: bool,
    pub held: bool,
    pub device: Device,
    pub acknowledged: bool,
    pub byte: u8,
}

#[derive(Clone, Copy, PartialEq, Eq)]
pub struct Pins {
    pub alert: bool,
    pub tcrit: bool,
}

// An event that is taken in: its two answer bytes, and the device after it.
#[derive(Clone, Copy, PartialEq, Eq)]
pub struct Accepted {
    pub first: u8,
    pub second: u8,
    pub device: Device,
}

// Why a step is refused, in the order of its tests.
#[derive(Clone, Copy, Debug, PartialEq, Eq)]
pub enum Refusal {
    OutOfRange,
    Kind,
    Operand,
}

// A refusal's code.
impl From<Refusal> for u8 {
    ghost from_gives = { λ why code. code ≡ refusal_code_of why };

    fn from(why: Refusal) -> u8 {
        match why {
            Refusal::OutOfRange => 8,
            Refusal::Kind => 3,
            Refusal::Operand => 4,
        }
    }
}

#[tactic(auto, unfolding(crate::specs::Asking::done_of))]
fn done(d: Device, asked: Asked) -> Outcome
    ensures { result ≡ done_of d asked }
{
    match asked {
        Asked::Put(reg, v) => bus::put(d, reg, v),
        Asked::Get(reg) => bus::get(d, reg),
        Asked::Point(reg) => bus::point(d, reg),
        Asked::Respond => bus::respond(d),
        Asked::Sense(local, eighths, held, broken) => bus::sense(
            d,
            local,
            Reading { eighths, held },
            broken,
        ),
        Asked::Restart => bus::silent(bus::powered(d.variant)),
        Asked::Nothing => bus::silent(d),
    }
}

// What the event does to the device, whatever their values.
#[tactic(auto, using(crate::proofs::Asking::asked_done))]
pub fn effect(d: Device, e: Event) -> Outcome
    ensures { result ≡ effect_of d e }
{
    done(d, bus::asked(d, e))
}

// The first answer byte of an outcome.
#[tactic(auto, unfolding(crate::specs::Step::answer_of))]
pub fn answer(o: Outcome) -> u8
    ensures { result ≡ answer_of o }
{
    let d = o.device;
    outputs::first(outputs::pins(d), o.acknowledged, o.taken, o.held)
}

// One event: refused for a device out of its ranges, then for a conversion of a second device, then for an operand outside the table.
#[tactic(auto, unfolding(crate::specs::Step::step_of))]
pub fn step(d: Device, e: Event) -> Result<Accepted, Refusal>
    ensures told { told_of d result ≡ step_of d e }
    ensures same { result ≡ from_told (step_of d e) }
{
    if !ranges::in_range(d) {
        return Err(Refusal::OutOfRange);
    }
    if ranges::second(e) {
        return Err(Refusal::Kind);
    }
    if !ranges::operands(e) {
        return Err(Refusal::Operand);
    }
    let o = effect(d, e);
    Ok(Accepted {
        first: answer(o),
        second: o.byte,
        device: o.device,
    })
}
