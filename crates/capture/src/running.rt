// Whole records, one after another.
ghost use Rattle.std.specs.Prelude.{◌≡◌, true, ◌∷◌, ◌-◌, min, ◌≤◌, length, drop, IsErr};
ghost use Rattle.pair.specs.Bus.{placed_of};
ghost use Rattle.pair.specs.Hand.{settled_of};
ghost use Rattle.capture.specs.Reader.{hold_of, between_of, report_of};
ghost use Rattle.record.specs.Record.{code_of};
ghost use Rattle.capture.specs.Loops.{waits_of, carrying_of, upto_of, Ready, Took, Full};

use super::{Ahead, Fed, Reader, Refusal, report, taking};
use device::{Device, Event};
use pair::hand;
use pair::hand::Hand;

// The pair to the front of the room that is lent.
fn put_pair(room: &mut [u8], first: u8, second: u8)
    requires { 2 ≤ length room.old }
    ensures { room.new ≡ first ∷ second ∷ drop 2 room.old }
{
    room[0] = first;
    room[1] = second;
}

// With so many records done and the device put back, and a record's first three bytes carried.
fn carrying(s: Reader, done: u32, h: Hand, device: Device, kind: u8, a: u8, b: u8) -> Reader
    ensures { result ≡ carrying_of s done (placed_of s.bus h.second device) kind a b }
{
    Reader {
        done,
        carried: 3,
        bytes: [kind, a, b],
        bus: pair::placed(s.bus, h.second, device),
        ..s
    }
}

// The same with none carried, and the other restarted where both are.
fn between(s: Reader, done: u32, h: Hand, device: Device) -> Reader
    ensures { result ≡ between_of s done (placed_of (settled_of s.bus h.restart) h.second device) }
{
    Reader {
        done,
        carried: 0,
        bytes: [0; 3],
        bus: pair::placed(hand::settled(s.bus, h.restart), h.second, device),
        ..s
    }
}

// A refused record: the state holds its code.
fn refused(s: Reader, decoded: Result<Event, record::Refusal>, at: usize, written: usize) -> Fed
    requires { IsErr decoded }
    ensures { result ≡ report_of (code_of decoded) at written (hold_of s (code_of decoded)) }
{
    let why = Refusal::from(decoded.unwrap_err());
    report(u8::from(why), at, written, taking::hold(s, why))
}

// A record's fourth byte with no room for its answers: 3 or 4, else 7.
pub(crate) fn no_room(ahead: Ahead, c: u8, written: usize) -> Fed
    requires { waits_of ahead.reader ≡ true }
    ensures { Full ahead.reader c ahead.at written result }
{
    let Ahead { reader: s, at } = ahead;
    let [kind, a, b] = s.bytes;
    let decoded = record::decode(s.bus.devices, kind, a, b, c);
    let Ok(_) = decoded else {
        return refused(s, decoded, at, written);
    };
    report(u8::from(Refusal::Room), at, written, s)
}

// How many records can be taken from a fourth byte on: one that restarts both devices, else the least of those counted, whole in the bytes, and with
// room.
fn upto(restart: bool, s: Reader, bytes: usize, room: usize) -> usize
    requires within { s.done ≤ s.count }
    ensures { result ≡ upto_of restart (s.count - s.done) bytes room }
{
    if restart {
        1
    } else {
        ((s.count - s.done) as usize).min(bytes.div_ceil(4).min(room / 2))
    }
}

// From a record whose fourth byte is next, for as long as whole records follow that name no other device: a code that ends the call, or 0.
// Kept as a loop: chunks are no plainer, since it takes a record's fourth byte and the next one's first three in turn, and may end between them.
// Kept: let .. else is the form that docs/STATEMENTS.md names.
// Kept: counts beside the slices, since C's lm89_fed tells them and the part from the written count on is what put_pair is lent.
// Kept: the report of the call, C's lm89_fed, with code 0 where it goes on; a Result of it and of the same three numbers is no plainer.
pub(crate) fn run(ahead: Ahead, input: &[u8], answers: &mut [u8], start: usize) -> Fed
    requires { Ready ahead input.now answers.old start }
    ensures { Took input.now answers.old ahead.reader ahead.at start answers.new result }
{
    let s = ahead.reader;
    let [mut kind, mut a, mut b] = s.bytes;
    let h = hand::taken(s.bus, kind, a);
    let mut device = pair::picked(s.bus, h.second);
    let mut done = s.done;
    let mut at = ahead.at;
    let mut written = start;
    let mut left = upto(h.restart, s, input.len() - at, answers.len() - start);
    loop {
        let decoded = record::decode(h.devices, kind, a, b, input[at]);
        let Ok(e) = decoded else {
            let n = carrying(s, done, h, device, kind, a, b);
            return refused(n, decoded, at, written);
        };
        let o = device::effect(device, e);
        put_pair(&mut answers[written..], device::answer(o) | h.lines, o.byte);
        device = o.device;
        done += 1;
        written += 2;
        at += 1;
        left -= 1;
        if left == 0 {
            return report(0, at, written, between(s, done, h, device));
        }
        kind = input[at];
        a = input[at + 1];
        b = input[at + 2];
        at += 3;
        if hand::leaves(h, kind, a) {
            return report(0, at, written, carrying(s, done, h, device, kind, a, b));
        }
    }
}
