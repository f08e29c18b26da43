// A failure as a POWER processor shows it, and a value read on one judged (rules B1 to B9): crates `hardware` and `verdict` for hosts.
ghost use Rattle.std.specs.Prelude.{◌≡◌};
ghost use Rattle.verdict.specs.Raw.{show, compare};

use verdict::raw::{RawProfile, RawRegisters, RawShown, RawVerdict};

// What hardware shows for a TEXASR of the model, and the bits that are fixed.
pub fn naszeptan_on_hardware(p: RawProfile, texasr: u64) -> RawShown
    ensures { result ≡ show p texasr }
{
    verdict::raw::show(p, texasr)
}

// The registers read on hardware against the model's.
pub fn naszeptan_compare(p: RawProfile, model: RawRegisters, hardware: RawRegisters) -> RawVerdict
    ensures { result ≡ compare p model hardware }
{
    verdict::raw::compare(p, model, hardware)
}
