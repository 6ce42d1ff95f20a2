// What one byte does to the reader's state.
ghost use Rattle.std.specs.Prelude.{◌≡◌, true, false, ◌<◌, ◌≤◌, length, set};
ghost use Rattle.capture.specs.Refusal.{refusal_code_of};
ghost use Rattle.capture.specs.Reader.{hold_of, quiet_of, head_of, carry_of, turn_of, ranges_of};
ghost use Rattle.capture.specs.Loops.{told_of, opened_or, variant_or, waits_of, Led};

use super::{Ahead, Reader, Refusal, header};
use pair::Bus;

pub(crate) fn hold(s: Reader, why: Refusal) -> Reader
    ensures { result ≡ hold_of s (refusal_code_of why) }
{
    Reader {
        held: u8::from(why),
        ..s
    }
}

// The next state, or why there is none, which the state then holds.
fn told(s: Reader, taken: Result<Reader, Refusal>) -> Reader
    ensures { result ≡ told_of s taken }
{
    match taken {
        Ok(next) => next,
        Err(why) => hold(s, why),
    }
}

// The device count.
fn opened(bus: Bus, devices: u8) -> Result<Bus, Refusal>
    ensures { result ≡ opened_or bus devices }
{
    match devices {
        1 | 2 => Ok(Bus { devices, ..bus }),
        _ => Err(Refusal::DeviceCount),
    }
}

// A variant: its device stands as after power-on.
fn variant(bus: Bus, second: bool, variant: u8) -> Result<Bus, Refusal>
    ensures { result ≡ variant_or bus second variant }
{
    if !device::ranges::variant(variant) {
        return Err(Refusal::Variant);
    }
    if second & (registers::address(variant) == registers::address(bus.first.variant)) {
        return Err(Refusal::OneAddress);
    }
    Ok(pair::placed(bus, second, device::bus::powered(variant)))
}

// A header byte: the device count, a variant, or one of the record count's four.
fn head_byte(s: Reader, b: u8) -> Result<Reader, Refusal>
    requires head_bound { s.head < 255 }
    requires count_bound { s.count < 0x1000000 }
    ensures { told_of s result ≡ head_of s b }
{
    let head = s.head + 1;
    if s.head == 0 {
        let bus = opened(s.bus, b)?;
        return Ok(Reader { head, bus, ..s });
    }
    if header::taken(s) < header::count_place(s.bus) {
        let bus = variant(s.bus, 1 < s.head, b)?;
        return Ok(Reader { head, bus, ..s });
    }
    Ok(Reader {
        head,
        count: s.count * 0x100 + u32::from(b),
        ..s
    })
}

// A byte at one of three places. Kept: by constant indices, so that the state stays in registers.
fn placed(q: [u8; 3], at: u8, b: u8) -> [u8; 3]
    requires { at < 3 }
    ensures { result ≡ set q at b }
{
    match at {
        0 => [b, q[1], q[2]],
        1 => [q[0], b, q[2]],
        _ => [q[0], q[1], b],
    }
}

fn carry(s: Reader, b: u8) -> Reader
    requires { s.carried < 3 }
    ensures { result ≡ carry_of s b }
{
    Reader {
        carried: s.carried + 1,
        bytes: placed(s.bytes, s.carried, b),
        ..s
    }
}

// Three bytes of a record are carried: the next one completes it.
fn waits(s: Reader) -> bool
    ensures { result ≡ waits_of s }
{
    (s.held == 0) & (s.carried == 3)
}

// A byte that completes no record: of the header, carried, or past the last counted record.
fn take_quiet(s: Reader, b: u8) -> Reader
    requires in_range { ranges_of s ≡ true }
    requires quiet { waits_of s ≡ false }
    ensures { turn_of s b ≡ quiet_of result }
{
    if s.held != 0 {
        return s;
    }
    if header::ahead(s) {
        return told(s, head_byte(s, b));
    }
    if s.done < s.count {
        return carry(s, b);
    }
    hold(s, Refusal::PastEnd)
}

// As many bytes as complete no record.
pub(crate) fn lead(ahead: Ahead, input: &[u8]) -> Ahead
    requires { ahead.at ≤ length input.now }
    ensures { Led input.now ahead.reader ahead.at result.reader result.at }
{
    let mut n = ahead.reader;
    for at in ahead.at..input.len() {
        if waits(n) {
            return Ahead { reader: n, at };
        }
        n = take_quiet(n, input[at]);
        if n.held != 0 {
            return Ahead { reader: n, at };
        }
    }
    Ahead {
        reader: n,
        at: input.len(),
    }
}
