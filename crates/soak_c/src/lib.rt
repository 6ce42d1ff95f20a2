#![tactic(auto)]
// T_CRIT_A at the end of a soak, for C.
ghost use Rattle.std.specs.Prelude.{◌≡◌};
ghost use Rattle.soak.specs.Soak.{soak_of};

use device::Device;
use soak::Soaked;

// Is T_CRIT_A pulled at the end? 8 for a device out of its ranges or of no variant, 10 in standby, 4 for a length that is no multiple of four, then at the
// first record met from the end that is no valid 05 or 06, 3 for another kind, else 4.
#[unsafe(no_mangle)]
pub extern "C" fn lm89_soak(device: Device, records: &[u8]) -> Soaked
    ensures { result ≡ soak_of device records.now }
{
    Soaked::from(soak::soak(device, records))
}
