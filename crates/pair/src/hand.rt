// One device at hand, for as long as records name no other; the other is known by its address and its lines.
ghost use Rattle.std.specs.Prelude.{◌≡◌};
ghost use Rattle.pair.specs.Bus.{at_address_of};
ghost use Rattle.pair.specs.Hand.{named_at, away_of, other_lines_of, others_of, hand_of, leaves_of, settled_of};

use super::{Bus, Named, picked, placed, response};
use device::bus::ALERT_RESPONSE;
use record::Kind;

// Kinds of records: up to RECEIVE they have an address, from CONVERT_SECOND on they are the second device's.
// Kept as numbers: record::Kind is no plainer, since these are bytes that no table has judged yet, and they are compared by order.
const RECEIVE: u8 = Kind::Receive as u8;

const CONVERT: u8 = Kind::Convert as u8;

const OPEN: u8 = Kind::Open as u8;

const POWER_ON: u8 = Kind::PowerOn as u8;

const CONVERT_SECOND: u8 = Kind::ConvertSecond as u8;

// How many devices, which is at hand, whether both restart, and of the other its address and its lines.
// Kept as bools: pair::picked, pair::placed and the theorems of specs/ say by a Bool which device is meant.
// Kept: of one device `away` is not read and `lines` is 0; an Option of both, asked at each record, is no plainer.
#[derive(Clone, Copy)]
pub struct Hand {
    pub devices: u8,
    pub second: bool,
    pub restart: bool,
    pub away: u8,
    pub lines: u8,
}

fn at_address(bus: Bus, address: u8) -> Named
    ensures { result ≡ at_address_of bus address }
{
    if address == registers::address(bus.first.variant) {
        Named::First
    } else if address == registers::address(bus.second.variant) {
        Named::Second
    } else {
        Named::Neither
    }
}

// Whom a record names, by its kind and its first operand.
fn named(bus: Bus, kind: u8, a: u8) -> Named
    ensures { result ≡ named_at bus kind a }
{
    if bus.devices != 2 {
        return Named::First;
    }
    if (kind == RECEIVE) & (a == ALERT_RESPONSE) {
        return response::respondent(bus);
    }
    match kind {
        ..=RECEIVE => at_address(bus, a),
        POWER_ON => Named::Both,
        CONVERT_SECOND.. => Named::Second,
        _ => Named::First,
    }
}

// The address of the other.
fn away(bus: Bus, second: bool) -> u8
    ensures { result ≡ away_of bus second }
{
    registers::address(picked(bus, !second).variant)
}

// The lines of the other, as bits of the first answer byte.
fn other_lines(bus: Bus, second: bool, restart: bool) -> u8
    ensures { result ≡ other_lines_of bus second restart }
{
    if (bus.devices == 2) & !restart {
        let d = picked(bus, !second);
        device::outputs::first(device::outputs::pins(d), false, false, false)
    } else {
        0
    }
}

// For a record whose kind and first operand are these; where neither device is named, or both, the first is at hand.
pub fn taken(bus: Bus, kind: u8, a: u8) -> Hand
    ensures { result ≡ hand_of bus kind a }
{
    let n = named(bus, kind, a);
    let second = n == Named::Second;
    let restart = n == Named::Both;
    Hand {
        devices: bus.devices,
        second,
        restart,
        away: away(bus, second),
        lines: other_lines(bus, second, restart),
    }
}

// A conversion of the other.
fn others(second: bool, kind: u8) -> bool
    ensures { result ≡ others_of second kind }
{
    if second {
        (kind == CONVERT) | (kind == OPEN)
    } else {
        CONVERT_SECOND <= kind
    }
}

// Of two devices, the record may name the other, or both.
pub fn leaves(h: Hand, kind: u8, a: u8) -> bool
    ensures { result ≡ leaves_of h kind a }
{
    if h.devices != 2 {
        return false;
    }
    ((kind <= RECEIVE) & ((a == h.away) | (a == ALERT_RESPONSE)))
        | ((kind == POWER_ON) | others(h.second, kind))
}

// The second as after power-on, where both are restarted.
pub fn settled(bus: Bus, restart: bool) -> Bus
    ensures { result ≡ settled_of bus restart }
{
    if restart {
        placed(bus, true, device::bus::powered(bus.second.variant))
    } else {
        bus
    }
}
