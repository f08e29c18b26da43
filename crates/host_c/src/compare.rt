// A failure as a POWER processor shows it, and a value read on one judged (rules B1 to B9): crates `hardware` and `verdict` for hosts.
ghost use Rattle.std.specs.Prelude.{◌≡◌};
ghost use Rattle.verdict.specs.Raw.{show, compare};

use verdict::raw::{RawProfile, RawRegisters, RawShown, RawVerdict};

// What hardware shows for a TEXASR of the model, and the bits that are fixed.
#[unsafe(no_mangle)]
pub extern "C" fn naszeptan_on_hardware(p: RawProfile, texasr: u64) -> RawShown
    ensures { result ≡ show p texasr }
{
    host::compare::naszeptan_on_hardware(p, texasr)
}

// The registers read on hardware against the model's.
#[unsafe(no_mangle)]
pub extern "C" fn naszeptan_compare(
    p: RawProfile,
    model: RawRegisters,
    hardware: RawRegisters,
) -> RawVerdict
    ensures { result ≡ compare p model hardware }
{
    host::compare::naszeptan_compare(p, model, hardware)
}
