#![tactic(auto)]

// T_CRIT_A at the end of a soak (request f): a stretch of conversions under one setup, read from the end backwards until both channels are decided.
ghost use Rattle.std.specs.Prelude.{◌≡◌, [], map, reverse, IfErr};
ghost use Rattle.soak.specs.Soak.{Running, back_of, soak_of};
ghost use Rattle.soak.specs.Answers.{soaked_of, from_soaked, Counted};
ghost use Rattle.soak.specs.Ends.{quad_in, readings_of};

use conversion::Sensed;
use device::{Device, Event};
use record::Kind;
use registers::bits;

// Whether T_CRIT_A is pulled, and how many records were read.
#[derive(Clone, Copy, Debug, PartialEq, Eq)]
pub struct Answer {
    pub pulled: bool,
    pub read: u64,
}

// A device out of its ranges or of no variant; one in standby; a length that is no multiple of four; or the first record met from the end that is no valid
// 05 or 06, why, and how many were read, it among them.
#[derive(Clone, Copy, Debug, PartialEq, Eq)]
pub enum Refusal {
    OutOfRange,
    Standby,
    Uneven,
    Record(record::Refusal, u64),
}

// What C gets: a code, whether T_CRIT_A is pulled, and how many records were read, a refused one among them.
// Kept: the C interface (struct lm89_soaked) has these fields.
#[repr(C)]
#[derive(Clone, Copy)]
pub struct Soaked {
    pub code: u8,
    pub pulled: bool,
    pub read: u64,
}

impl From<Refusal> for u8 {
    ghost use Rattle.soak.specs.Answers.{refusal_code};

    ghost from_gives = { λ refusal code. code ≡ refusal_code refusal };

    fn from(refusal: Refusal) -> u8 {
        match refusal {
            Refusal::OutOfRange => 8,
            Refusal::Standby => 10,
            Refusal::Uneven => 4,
            Refusal::Record(why, _) => u8::from(why),
        }
    }
}

impl Refusal {
    ghost use Rattle.soak.specs.Answers.{refusal_read};

    fn read(self) -> u64
        ensures { result ≡ refusal_read self }
    {
        match self {
            Refusal::Record(_, read) => read,
            _ => 0,
        }
    }
}

impl From<Result<Answer, Refusal>> for Soaked {
    ghost use Rattle.soak.specs.Answers.{soaked_of};

    ghost from_gives = { λ answer soaked. soaked ≡ soaked_of answer };

    fn from(answer: Result<Answer, Refusal>) -> Soaked {
        match answer {
            Ok(Answer { pulled, read }) => Soaked {
                code: 0,
                pulled,
                read,
            },
            Err(refusal) => Soaked {
                code: u8::from(refusal),
                pulled: false,
                read: refusal.read(),
            },
        }
    }
}

// What the records read make of an earlier latch: of a clear one and of a set one.
#[derive(Clone, Copy, PartialEq, Eq)]
pub struct Made {
    pub clear: bool,
    pub set: bool,
}

impl Made {
    ghost use Rattle.soak.specs.Ends.{made_of, through_of};

    // No record read: a latch is what it was.
    const SAME: Made = Made {
        clear: false,
        set: true,
    };

    fn of(self, latch: bool) -> bool
        ensures { result ≡ made_of self latch }
    {
        if latch { self.set } else { self.clear }
    }

    // P8, with one conversion more before those read.
    fn through(self, critical: bool, cleared: bool) -> Made
        ensures { result ≡ through_of self critical cleared }
    {
        Made {
            clear: self.of(conversion::latch(critical, cleared, false)),
            set: self.of(conversion::latch(critical, cleared, true)),
        }
    }
}

// What they make of it on each channel; on the remote one by the earlier fault count, 2 and 3 alike: a further fault makes 3 of both.
// Kept as three fields: an array of them is no plainer, since 2 and 3 have one place.
#[derive(Clone, Copy)]
pub struct Ends {
    pub local: Made,
    pub none: Made,
    pub one: Made,
    pub more: Made,
}

impl Ends {
    ghost use Rattle.soak.specs.Ends.{began_of, counted_of, local_before, remote_before, before_of, decided_by, pulled_by};

    fn began() -> Ends
        ensures { result ≡ began_of }
    {
        Ends {
            local: Made::SAME,
            none: Made::SAME,
            one: Made::SAME,
            more: Made::SAME,
        }
    }

    // What is made of the remote latch, by the fault count.
    fn counted(self, faults: u8) -> Made
        ensures { result ≡ counted_of self faults }
    {
        match faults {
            0 => self.none,
            1 => self.one,
            _ => self.more,
        }
    }

    #[tactic(auto, unfolding(crate::specs::Ends::local_before, registers::specs::Page::setting_of, registers::specs::Page::read_position_of))]
    fn local_before(self, s: [u8; 14], local: u8) -> Made
        ensures { result ≡ local_before s self local }
    {
        let here = temperature::eighths(local, 0);
        let out = conversion::local_limits(s).compare(here);
        let cleared = temperature::cleared(
            here,
            s[registers::LOCAL_CRIT],
            s[registers::HYSTERESIS],
        );
        self.local.through(out.crit, cleared)
    }

    // P4: from this fault count. Kept apart from the local channel, which has no offset, count or queue.
    #[tactic(auto, unfolding(crate::specs::Ends::remote_before, registers::specs::Page::setting_of, registers::specs::Page::read_position_of))]
    fn remote_before(self, s: [u8; 14], remote: i16, faults: u8) -> Made
        ensures { result ≡ remote_before s self remote faults }
    {
        let out = conversion::remote_limits(s).compare(remote);
        let cleared = temperature::cleared(
            remote,
            s[registers::REMOTE_CRIT],
            s[registers::HYSTERESIS],
        );
        let count = conversion::count(faults, out.any());
        let v = out.shown(conversion::queued(s[registers::CONFIGURATION], count));
        self.counted(count).through(v.crit, cleared)
    }

    // With one conversion more before those read.
    #[tactic(auto, unfolding(crate::specs::Ends::before_of))]
    fn before(self, s: [u8; 14], local: u8, remote: i16) -> Ends
        ensures { result ≡ before_of s self local remote }
    {
        Ends {
            local: self.local_before(s, local),
            none: self.remote_before(s, remote, 0),
            one: self.remote_before(s, remote, 1),
            more: self.remote_before(s, remote, 2),
        }
    }

    // Both channels: the same latch whatever came before.
    fn decided(self) -> bool
        ensures { result ≡ decided_by self }
    {
        (self.local.clear == self.local.set)
            & (self.none.clear == self.none.set)
            & (self.none == self.one)
            & (self.none == self.more)
    }

    // T_CRIT_A after the records read, from this device.
    #[tactic(auto, unfolding(crate::specs::Ends::pulled_by))]
    fn pulled(self, d: Device) -> bool
        ensures { result ≡ pulled_by d self }
    {
        let old = d.sensed;
        let sensed = Sensed {
            llatch: self.local.of(old.llatch),
            rlatch: self.counted(old.faults).of(old.rlatch),
            ..old
        };
        device::outputs::tcrit(Device { sensed, ..d })
    }
}

// What a record reads, if it is a valid 05 or 06: the local byte, and the remote reading in eighths (P2). Another kind is refused whatever its operands.
fn readings(s: [u8; 14], quad: [u8; 4]) -> Result<(u8, i16), record::Refusal>
    ensures { result ≡ readings_of s (quad_in quad) }
{
    let [kind, a, b, c] = quad;
    // Kept as numbers: with Kind::try_from a record takes a quarter more time.
    if (kind != Kind::Convert as u8) & (kind != Kind::Open as u8) {
        return Err(record::Refusal::Kind);
    }
    match record::decode(1, kind, a, b, c)? {
        Event::Convert(local, high, low) => {
            Ok((local, conversion::reading(s, high, low).eighths))
        }
        Event::Open(local) => Ok((local, temperature::open_reading().eighths)),
        _ => Err(record::Refusal::Kind),
    }
}

// From the end backwards until both channels are decided or the start is reached.
fn back(d: Device, quads: &[[u8; 4]]) -> Result<Answer, Refusal>
    requires { Running d }
    ensures told { soaked_of result ≡ back_of d [] (map quad_in (reverse quads.now)) }
    ensures counted { IfErr result Counted }
{
    let mut ends = Ends::began();
    let mut read = 0;
    // A record is looked at only once the channels are seen to be undecided.
    for quad in quads.iter().rev() {
        if ends.decided() {
            break;
        }
        read += 1;
        let met = readings(d.settings, *quad);
        let (local, remote) = met.map_err(|why| Refusal::Record(why, read))?;
        ends = ends.before(d.settings, local, remote);
    }
    Ok(Answer {
        pulled: ends.pulled(d),
        read,
    })
}

// Is T_CRIT_A pulled at the end?
pub fn soak(device: Device, records: &[u8]) -> Result<Answer, Refusal>
    ensures told { soaked_of result ≡ soak_of device records.now }
    ensures same { result ≡ from_soaked (soak_of device records.now) }
    ensures counted { IfErr result Counted }
{
    if !device::ranges::in_range(device) {
        return Err(Refusal::OutOfRange);
    }
    if device::bus::configured(device.settings, bits::STANDBY) {
        return Err(Refusal::Standby);
    }
    let (quads, over) = records.as_chunks::<4>();
    if !over.is_empty() {
        return Err(Refusal::Uneven);
    }
    back(device, quads)
}
