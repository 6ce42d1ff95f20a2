#![tactic(auto)]
// The library's version, for C.
ghost use Rattle.std.specs.Prelude.{◌≡◌};
ghost use Rattle.bench_version.specs.Version.{version_of};

// A header of another major number was written for another library.
#[unsafe(no_mangle)]
pub extern "C" fn lm89_version() -> u32
    ensures { result ≡ version_of }
{
    bench_version::version()
}
