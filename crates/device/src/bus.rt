// P6, P9 to P11 and requests a and b: the bus, conversions and power-on.
ghost use Rattle.std.specs.Prelude.{◌≡◌, Some};
ghost use Rattle.registers.specs.Bits.{has};
ghost use Rattle.registers.specs.Page.{setting_of, write_position_of};
ghost use Rattle.device.specs.Bus.{silent_of, answered_of, pointed_of, masked_of, stored_of, fired_of, put_of, status_read_of};
ghost use Rattle.device.specs.Bus.{low_kept_of, low_let_go_of, low_read_of, after_read_of};
ghost use Rattle.device.specs.Bus.{read_only_value_of, get_of, point_of, responds_of, respond_of, takes_of, converted_of, sense_of, powered_of};
ghost use Rattle.device.specs.Asking.{asked_at, asked_of};

use super::{Asked, Device, Event, Outcome, outputs};
use registers::{Way, bits};
use temperature::Reading;

pub const ALERT_RESPONSE: u8 = 0x0C;

pub(crate) fn silent(d: Device) -> Outcome
    ensures { result ≡ silent_of d }
{
    Outcome {
        device: d,
        acknowledged: false,
        taken: false,
        held: false,
        byte: 0,
    }
}

fn answered(d: Device, byte: u8) -> Outcome
    ensures { result ≡ answered_of d byte }
{
    Outcome {
        acknowledged: true,
        byte,
        ..silent(d)
    }
}

// A bit of configuration is set.
pub fn configured(settings: [u8; 14], bit: u8) -> bool
    ensures { result ≡ has (setting_of settings 0x03) bit }
{
    bits::has(settings[registers::CONFIGURATION], bit)
}

fn pointed(d: Device, to: u8) -> Device
    ensures { result ≡ pointed_of d to }
{
    Device { pointer: to, ..d }
}

// The ALERT mask bit becomes 1.
#[tactic(auto, unfolding(crate::specs::Bus::masked_of))]
fn masked(d: Device) -> Device
    ensures { result ≡ masked_of d }
{
    let mut settings = d.settings;
    settings[registers::CONFIGURATION] |= bits::ALERT_MASK;
    Device { settings, ..d }
}

// The byte of the register that is written at `reg`, which stands at position `i`.
#[tactic(auto, unfolding(crate::specs::Bus::stored_of))]
fn stored(d: Device, reg: u8, i: usize, v: u8) -> Device
    requires { write_position_of reg ≡ Some i }
    ensures { result ≡ stored_of d reg v }
{
    let mut settings = d.settings;
    settings[i] = v & registers::kept(reg);
    Device {
        pointer: reg,
        pending: d.pending & configured(settings, bits::STANDBY),
        settings,
        ..d
    }
}

#[tactic(auto, unfolding(crate::specs::Bus::fired_of))]
fn fired(d: Device) -> Device
    ensures { result ≡ fired_of d }
{
    Device {
        pointer: registers::ONE_SHOT,
        pending: d.pending | configured(d.settings, bits::STANDBY),
        ..d
    }
}

// Write byte.
#[tactic(auto, unfolding(crate::specs::Bus::put_of))]
pub(crate) fn put(d: Device, reg: u8, v: u8) -> Outcome
    ensures { result ≡ put_of d reg v }
{
    if !registers::allowed(Way::Write, reg) {
        return silent(d);
    }
    match registers::position(Way::Write, reg) {
        Some(i) => answered(stored(d, reg, i as usize, v), 0),
        None => answered(fired(d), 0),
    }
}

#[tactic(auto, unfolding(crate::specs::Bus::status_read_of))]
fn status_read(d: Device) -> Device
    ensures { result ≡ status_read_of d }
{
    let n = Device { status: 0, ..d };
    if !outputs::comparator(d) & bits::has(d.status, bits::ALERTING) {
        masked(n)
    } else {
        n
    }
}

// The low byte at a read of 10: the kept one, or that of the latest reading.
#[tactic(auto, unfolding(crate::specs::Bus::low_read_of))]
fn low_read(d: Device) -> u8
    ensures { result ≡ low_read_of d }
{
    if d.lowkept {
        d.low
    } else {
        temperature::low_byte(d.sensed.remote)
    }
}

// A read of 01 keeps the low byte of its moment.
fn low_kept(d: Device) -> Device
    ensures { result ≡ low_kept_of d }
{
    Device {
        low: temperature::low_byte(d.sensed.remote),
        lowkept: true,
        ..d
    }
}

// A read of 10 lets go.
fn low_let_go(d: Device) -> Device
    ensures { result ≡ low_let_go_of d }
{
    Device {
        low: 0,
        lowkept: false,
        ..d
    }
}

// A register that no write sets: its byte, and what a read of it leaves.
#[tactic(auto, unfolding(crate::specs::Bus::after_read_of, crate::specs::Bus::read_only_value_of))]
fn read_only(d: Device, reg: u8) -> Outcome
    ensures { result ≡ answered_of (after_read_of d reg) (read_only_value_of d reg) }
{
    match reg {
        registers::LOCAL => answered(d, d.sensed.local),
        registers::REMOTE => answered(low_kept(d), temperature::high_byte(d.sensed.remote)),
        registers::STATUS => answered(status_read(d), d.status),
        registers::REMOTE_PART => answered(low_let_go(d), low_read(d)),
        _ => answered(d, registers::read_only(d.variant, reg)),
    }
}

// Read byte, and receive byte with the pointer.
#[tactic(auto, unfolding(crate::specs::Bus::get_of, crate::specs::Bus::value_of, crate::specs::Bus::read_only_value_of, crate::specs::Bus::low_read_of))]
pub(crate) fn get(d: Device, reg: u8) -> Outcome
    ensures { result ≡ get_of d reg }
{
    if !registers::allowed(Way::Read, reg) {
        return silent(d);
    }
    let n = pointed(d, reg);
    match registers::position(Way::Read, reg) {
        Some(i) => answered(n, d.settings[i as usize]),
        None => read_only(n, reg),
    }
}

// Send byte.
#[tactic(auto, unfolding(crate::specs::Bus::point_of))]
pub(crate) fn point(d: Device, reg: u8) -> Outcome
    ensures { result ≡ point_of d reg }
{
    if registers::known(reg) {
        answered(pointed(d, reg), 0)
    } else {
        silent(d)
    }
}

// P9 lets the device answer an alert response.
#[tactic(auto, unfolding(crate::specs::Bus::responds_of))]
pub fn responds(d: Device) -> bool
    ensures { result ≡ responds_of d }
{
    outputs::alert(d) & !outputs::comparator(d)
}

// Alert response.
#[tactic(auto, unfolding(crate::specs::Bus::respond_of))]
pub(crate) fn respond(d: Device) -> Outcome
    ensures { result ≡ respond_of d }
{
    if responds(d) {
        answered(masked(d), registers::address(d.variant) * 2 + 1)
    } else {
        silent(d)
    }
}

#[tactic(auto, unfolding(crate::specs::Bus::takes_of))]
fn takes(d: Device) -> bool
    ensures { result ≡ takes_of d }
{
    !configured(d.settings, bits::STANDBY) | d.pending
}

#[tactic(auto, unfolding(crate::specs::Bus::converted_of))]
fn converted(d: Device, local: u8, remote: i16, broken: bool) -> Device
    ensures { result ≡ converted_of d local remote broken }
{
    let sensed = conversion::sense(d.settings, d.sensed, local, remote, broken);
    Device {
        sensed,
        status: d.status | sensed.live,
        pending: false,
        ..d
    }
}

// A conversion, taken or not.
// Kept as three arguments, here and above: so the public conversion::sense takes them, and Asked::Sense carries them fastest.
#[tactic(auto, unfolding(crate::specs::Bus::sense_of))]
pub(crate) fn sense(d: Device, local: u8, remote: Reading, broken: bool) -> Outcome
    ensures { result ≡ sense_of d local remote broken }
{
    if !takes(d) {
        return silent(d);
    }
    Outcome {
        taken: true,
        held: remote.held,
        ..silent(converted(d, local, remote.eighths, broken))
    }
}

// A device as after power-on.
#[tactic(auto, unfolding(crate::specs::Bus::powered_of))]
pub fn powered(variant: u8) -> Device
    ensures { result ≡ powered_of variant }
{
    Device {
        variant,
        pointer: registers::LOCAL,
        settings: registers::power_on(variant),
        ..Device::default()
    }
}

fn at(d: Device, address: u8, asked: Asked) -> Asked
    ensures { result ≡ asked_at d address asked }
{
    if address == registers::address(d.variant) {
        asked
    } else {
        Asked::Nothing
    }
}

// What the event asks of this device.
#[tactic(auto, unfolding(crate::specs::Asking::asked_of))]
pub(crate) fn asked(d: Device, e: Event) -> Asked
    ensures { result ≡ asked_of d e }
{
    match e {
        Event::Write(address, reg, v) => at(d, address, Asked::Put(reg, v)),
        Event::Read(address, reg) => at(d, address, Asked::Get(reg)),
        Event::Send(address, reg) => at(d, address, Asked::Point(reg)),
        Event::Receive(address) => if address == ALERT_RESPONSE {
            Asked::Respond
        } else {
            at(d, address, Asked::Get(d.pointer))
        },
        Event::Convert(local, high, low) | Event::ConvertSecond(local, high, low) => {
            let remote = conversion::reading(d.settings, high, low);
            Asked::Sense(local, remote.eighths, remote.held, false)
        }
        Event::Open(local) | Event::OpenSecond(local) => {
            let remote = temperature::open_reading();
            Asked::Sense(local, remote.eighths, remote.held, true)
        }
        Event::PowerOn => Asked::Restart,
    }
}
