#![tactic(auto)]
// Fan speeds from the stamps of a tachometer's edges, for C.
ghost use Rattle.std.specs.Prelude.{◌≡◌};
ghost use Rattle.tach.specs.Tach.{tach_of};

use tach::Speeds;

// The slowest and the fastest speed of a run of stamps, and how many fell under the floor: 12 for fewer than two stamps; then 13 for two equal neighbours.
#[unsafe(no_mangle)]
pub extern "C" fn lm89_tach(stamps: &[u16], floor: u32) -> Speeds
    ensures { result ≡ tach_of stamps.now floor }
{
    Speeds::from(tach::measure(stamps, floor))
}
