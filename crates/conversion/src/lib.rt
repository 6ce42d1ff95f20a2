#![tactic(auto)]
// A taken conversion (P2 to P5, P8, request b): what the device senses, and what follows from it.
ghost use Rattle.std.specs.Prelude.{◌≡◌};
ghost use Rattle.conversion.specs.Conversion.{reading_of, local_limits_of, remote_limits_of, out_of, any_of, count_of};
ghost use Rattle.conversion.specs.Conversion.{queued_of, shown_of, bit_of, live_of, latch_of, sensed_of};

use registers::bits;
use temperature::Reading;

// All that only conversions and power-on move. Readings: remote in eighths; local in degrees, a byte. No padding but at the end.
#[repr(C)]
#[derive(Clone, Copy, Default, PartialEq, Eq)]
pub struct Sensed {
    pub remote: i16,
    pub local: u8,
    pub live: u8,
    pub faults: u8,
    pub llatch: bool,
    pub rlatch: bool,
}

// A channel's limits, in eighths.
#[derive(Clone, Copy)]
pub struct Limits {
    pub high: i16,
    pub low: i16,
    pub crit: i16,
}

impl Limits {
    // P3, for either channel.
    pub fn compare(self, t: i16) -> Out
        ensures { result ≡ out_of t self }
    {
        Out {
            high: temperature::above(t, self.high),
            low: temperature::below(t, self.low),
            crit: temperature::above(t, self.crit),
        }
    }
}

// Which limits a reading is out of.
#[derive(Clone, Copy)]
pub struct Out {
    pub high: bool,
    pub low: bool,
    pub crit: bool,
}

impl Out {
    pub fn any(self) -> bool
        ensures { result ≡ any_of self }
    {
        self.high | self.low | self.crit
    }

    // P4: what becomes live of it.
    pub fn shown(self, queued: bool) -> Out
        ensures { result ≡ shown_of queued self }
    {
        Out {
            high: self.high & !queued,
            low: self.low & !queued,
            crit: self.crit & !queued,
        }
    }
}

// P4: so many remote readings in a row, each outside a limit, let the remote bits through the fault queue.
const QUEUE: u8 = 3;

// P2, request b: the remote reading of a sample, and whether it was held.
// Kept: settings go as the array that they are in C's struct lm89_device, here and below.
pub fn reading(s: [u8; 14], high: u8, low: u8) -> Reading
    ensures { result ≡ reading_of s high low }
{
    temperature::held_sum(high, low, s[registers::OFFSET], s[registers::OFFSET_PART])
}

// Kept apart from the remote ones: a local limit has no low byte, and one function over the numbers of six settings says it no plainer.
pub fn local_limits(s: [u8; 14]) -> Limits
    ensures { result ≡ local_limits_of s }
{
    Limits {
        high: temperature::eighths(s[registers::LOCAL_HIGH], 0),
        low: temperature::eighths(s[registers::LOCAL_LOW], 0),
        crit: temperature::eighths(s[registers::LOCAL_CRIT], 0),
    }
}

pub fn remote_limits(s: [u8; 14]) -> Limits
    ensures { result ≡ remote_limits_of s }
{
    Limits {
        high: temperature::eighths(s[registers::REMOTE_HIGH], s[registers::REMOTE_HIGH_PART]),
        low: temperature::eighths(s[registers::REMOTE_LOW], s[registers::REMOTE_LOW_PART]),
        crit: temperature::eighths(s[registers::REMOTE_CRIT], 0),
    }
}

// P4: the fault count after a conversion. Kept as choices: of std's `min` the compiler makes jumps, mispredicted at every second random reading.
pub fn count(faults: u8, out: bool) -> u8
    ensures { result ≡ count_of faults out }
{
    if out {
        if faults < QUEUE { faults + 1 } else { QUEUE }
    } else {
        0
    }
}

// P4: the fault queue holds the remote bits back.
pub fn queued(configuration: u8, count: u8) -> bool
    ensures { result ≡ queued_of configuration count }
{
    bits::has(configuration, bits::FAULT_QUEUE) & (count < QUEUE)
}

// A bit of a byte, on or off. Kept: `u8::from(on) * bit` says it no plainer.
pub fn bit(on: bool, bit: u8) -> u8
    ensures { result ≡ bit_of on bit }
{
    if on { bit } else { 0 }
}

// P5: LHIGH, LLOW, RHIGH, RLOW, OPEN, RCRIT, LCRIT.
fn live(l: Out, r: Out, broken: bool) -> u8
    ensures { result ≡ live_of l r broken }
{
    bit(l.high, bits::LHIGH)
        | bit(l.low, bits::LLOW)
        | bit(r.high, bits::RHIGH)
        | bit(r.low, bits::RLOW)
        | bit(broken, bits::OPEN)
        | bit(r.crit, bits::RCRIT)
        | bit(l.crit, bits::LCRIT)
}

// P8, for either channel. Kept as choices: of `&` and `|` the compiler makes a jump, mispredicted at one random reading in five.
pub fn latch(critical: bool, cleared: bool, old: bool) -> bool
    ensures { result ≡ latch_of critical cleared old }
{
    if critical {
        true
    } else if cleared {
        false
    } else {
        old
    }
}

// What a taken conversion leaves, given the local byte, the remote reading and whether the diode is broken open.
pub fn sense(s: [u8; 14], old: Sensed, local: u8, remote: i16, broken: bool) -> Sensed
    ensures { result ≡ sensed_of s old local remote broken }
{
    let here = temperature::eighths(local, 0);
    let l = local_limits(s).compare(here);
    let r = remote_limits(s).compare(remote);
    let faults = count(old.faults, r.any());
    let v = r.shown(queued(s[registers::CONFIGURATION], faults));
    let lclear = temperature::cleared(here, s[registers::LOCAL_CRIT], s[registers::HYSTERESIS]);
    let rclear = temperature::cleared(remote, s[registers::REMOTE_CRIT], s[registers::HYSTERESIS]);
    Sensed {
        local,
        remote,
        live: live(l, v, broken),
        faults,
        llatch: latch(l.crit, lclear, old.llatch),
        rlatch: latch(v.crit, rclear, old.rlatch),
    }
}
