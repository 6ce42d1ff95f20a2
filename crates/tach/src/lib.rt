#![tactic(auto)]

// Fan speeds from the stamps of a tachometer's edges, one a revolution (request h). It stands beside the sensor.
ghost use Rattle.std.specs.Prelude.{◌≡◌, ◌≢◌};
ghost use Rattle.tach.specs.Stamps.{period_of, speed_of};
ghost use Rattle.tach.specs.Tach.{tach_of, code_of, told_of, from_told};

// Ticks of the counter in a minute; the speed at a period of one tick, and none is higher.
const TICKS_A_MINUTE: u32 = 5400000;

// Why no speeds are told of a run of stamps; each with its code.
#[derive(Clone, Copy, Debug, PartialEq, Eq)]
pub enum Refusal {
    // fewer than two
    FewStamps = 12,
    // two equal neighbours
    EqualStamps = 13,
}

impl From<Refusal> for u8 {
    ghost from_gives = { λ refusal code. code ≡ code_of refusal };

    fn from(refusal: Refusal) -> u8 {
        refusal as u8
    }
}

// The slowest and the fastest speed of a run of stamps, in revolutions a minute, and how many of its speeds fell under the floor.
#[derive(Clone, Copy, Debug, PartialEq, Eq)]
pub struct Report {
    pub slowest: u32,
    pub fastest: u32,
    pub under: u64,
}

// A report or a refusal as C gets it: a code, 0 for a report, and the report's numbers, each 0 at a refusal.
// Kept: the C interface (struct lm89_speeds) has these fields.
#[repr(C)]
#[derive(Drop)]
pub struct Speeds {
    pub code: u8,
    pub slowest: u32,
    pub fastest: u32,
    pub under: u64,
}

impl From<Result<Report, Refusal>> for Speeds {
    ghost from_gives = { λ measured speeds. speeds ≡ told_of measured };

    fn from(measured: Result<Report, Refusal>) -> Speeds {
        match measured {
            Ok(report) => Speeds {
                code: 0,
                slowest: report.slowest,
                fastest: report.fastest,
                under: report.under,
            },
            Err(refusal) => Speeds {
                code: u8::from(refusal),
                slowest: 0,
                fastest: 0,
                under: 0,
            },
        }
    }
}

// The later stamp less the earlier, going round.
fn period(earlier: u16, later: u16) -> u16
    ensures { result ≡ period_of earlier later }
{
    later.wrapping_sub(earlier)
}

// Revolutions a minute, rounded down.
fn speed(earlier: u16, later: u16) -> u32
    requires { later ≢ earlier }
    ensures { result ≡ speed_of (period_of earlier later) }
{
    TICKS_A_MINUTE / u32::from(period(earlier, later))
}

// The slowest and the fastest speed of a run of stamps, and how many fell under the floor.
pub fn measure(stamps: &[u16], floor: u32) -> Result<Report, Refusal>
    ensures told { told_of result ≡ tach_of stamps.now floor }
    ensures same { result ≡ from_told (tach_of stamps.now floor) }
{
    if stamps.len() < 2 {
        return Err(Refusal::FewStamps);
    }
    let mut earlier = stamps[0];
    let mut slowest = TICKS_A_MINUTE;
    let mut fastest: u32 = 0;
    let mut under: u64 = 0;
    for &later in &stamps[1..] {
        if later == earlier {
            return Err(Refusal::EqualStamps);
        }
        let speed = speed(earlier, later);
        slowest = slowest.min(speed);
        fastest = fastest.max(speed);
        under += u64::from(speed < floor);
        earlier = later;
    }
    Ok(Report {
        slowest,
        fastest,
        under,
    })
}
