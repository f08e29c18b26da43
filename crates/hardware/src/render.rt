// What a processor shows for a failure, and the bits that the Power ISA text fixes.
ghost use Rattle.std.specs.Prelude.{◌≡◌, cond, ◌+◌, ◌-◌, ◌<◌, ◌^◌, ◌==◌};
ghost use Rattle.hardware.specs.Inner.{bit_of};
ghost use Rattle.hardware.specs.Render.{rendered, going, value, care_cause, care_state, care_rot, care_exact, care};
ghost use Rattle.hardware.specs.Table.{may_be_late, is_sooner};
ghost use Rattle.thread.specs.Texasr.{rot, weight};

use crate::fields::{NESTING, causes, code, told};
use crate::{Flag, Profile, Told};

// Bits 0:32 and 34:38.
const ALL: u64 = 0xFFFF_FFFF_BE00_0000;

// A failure that a TEXASR of the model tells, for a processor to show.
#[derive(Clone, Copy)]
struct Failure {
    profile: Profile,
    texasr: u64,
    told: Told,
}

impl Failure {
    fn rendered(self) -> u64
        ensures { result ≡ rendered self.profile self.texasr (bit_of self.told) }
    {
        let x = self.texasr;
        let first = self.told.first_byte(self.profile.seventh, code(x));
        thread::packed(
            first * 0x100_0000 + causes(x),
            Flag::Suspended.of(x),
            Flag::Problem.of(x),
            self.told.exact(Flag::Exact.of(x)),
            Flag::Rot.of(x),
            self.profile.level(self.told, thread::tl(x)),
        ) + base::bit(self.profile.hv) * Flag::Hypervisor.weight()
    }

    fn care_cause(self) -> u64
        ensures value { result ≡ care_cause self.profile (bit_of self.told) }
        ensures upper_bound { result < 2 ^ 64 - 2 ^ 32 + 1 }
    {
        let free = matches!(self.told, Told::Failed(NESTING)) && self.profile.seventh.is_free();
        (0xFFFF_FFFF - base::bit(free) * 0x100_0000) * 0x1_0000_0000
    }

    fn care_problem(self) -> u64
        ensures value { result ≡ cond (is_sooner self.profile (bit_of self.told)) 0 (weight 35) }
        ensures upper_bound { result < 2 ^ 28 + 1 }
    {
        if self.profile.is_sooner(self.told) {
            0
        } else {
            Flag::Problem.weight()
        }
    }

    fn care_state(self) -> u64
        ensures value { result ≡ care_state self.profile self.texasr (bit_of self.told) }
        ensures upper_bound { result < 2 ^ 32 - 2 ^ 28 }
    {
        if self.profile.may_be_late(self.told) {
            return 0;
        }
        let level = self.profile.level(self.told, thread::tl(self.texasr));
        Flag::Suspended.weight()
            + Flag::Hypervisor.weight()
            + self.care_problem()
            + self.profile.level_care(level)
    }

    // ROT may have gone off before a late recording, or not yet at an earlier overflow.
    fn rot_is_free(self) -> bool
        ensures { result ≡ cond (rot self.texasr == 1) (may_be_late self.profile (bit_of self.told)) (is_sooner self.profile (bit_of self.told)) }
    {
        if Flag::Rot.of(self.texasr) == 1 {
            self.profile.may_be_late(self.told)
        } else {
            self.profile.is_sooner(self.told)
        }
    }

    fn care_rot(self) -> u64
        ensures value { result ≡ care_rot self.profile self.texasr (bit_of self.told) }
        ensures upper_bound { result < 2 ^ 26 }
    {
        if self.rot_is_free() {
            0
        } else {
            Flag::Rot.weight()
        }
    }

    fn care_exact(self) -> u64
        ensures value { result ≡ care_exact (bit_of self.told) }
        ensures upper_bound { result < 2 ^ 27 + 2 ^ 26 + 1 }
    {
        if self.told.may_be_exact() {
            Flag::Summary.weight()
        } else {
            Flag::Summary.weight() + Flag::Exact.weight()
        }
    }
}

// No failure: ROT and the level are kept.
fn going(x: u64) -> u64
    ensures { result ≡ going x }
{
    Flag::Rot.of(x) * Flag::Rot.weight() + thread::tl(x)
}

#[tactic(auto, unfolding(crate::specs::Render::value))]
pub fn value(p: Profile, x: u64) -> u64
    ensures { result ≡ value p x }
{
    match told(x) {
        Told::Open => going(x),
        Told::Torn => x,
        failed => Failure {
            profile: p,
            texasr: x,
            told: failed,
        }
        .rendered(),
    }
}

#[tactic(auto, unfolding(crate::specs::Render::care))]
pub fn care(p: Profile, x: u64) -> u64
    ensures { result ≡ care p x }
{
    match told(x) {
        Told::Open => ALL + p.level_care(thread::tl(x)),
        Told::Torn => 0,
        failed => {
            let failure = Failure {
                profile: p,
                texasr: x,
                told: failed,
            };
            failure.care_cause() + failure.care_state() + failure.care_rot() + failure.care_exact()
        }
    }
}
