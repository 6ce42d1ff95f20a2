#![tactic(auto)]

// The library's version.
ghost use Rattle.std.specs.Prelude.{◌≡◌};
ghost use Rattle.bench_version.specs.Version.{version_of};

const MAJOR: u32 = 4;

const MINOR: u32 = 4;

// A header of another major number was written for another library.
pub fn version() -> u32
    ensures { result ≡ version_of }
{
    MAJOR * 0x10000 + MINOR
}
