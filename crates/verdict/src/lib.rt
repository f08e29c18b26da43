// A value read on a processor, judged against the one that `hardware` has for it (rules B1, B6 to B8). On plain numbers: `raw`.
#![tactic(auto)]

pub mod raw;

ghost use Rattle.std.specs.Prelude.{◌≡◌, cond, ◌<◌, ◌==◌};
ghost use Rattle.thread.specs.Texasr.{tl};
ghost use Rattle.hardware.specs.Fields.{told};
ghost use Rattle.hardware.specs.Inner.{bit_of};
ghost use Rattle.hardware.specs.Table.{may_be_late, is_sooner};
ghost use Rattle.hardware.specs.Judge.{judgement, differing, may_go_on, is_committed, may_differ, is_lost, form, otherwise, is_other, same, judged, tfiar, hidden, addressed, tfiar_care, tfiar_differing, with_others, compared};

use hardware::fields::{
    ABORT, CONFLICT, DISALLOWED, FOOTPRINT, NESTING, OWN_STORE, TRANSLATION, told,
};
use hardware::{Compared, Flag, Judged, Profile, Registers, Told, Verdict, render};

// Bits 8:31 and FS.
const TELLING: u64 = 0x00FF_FFFF_0800_0000;

const LEVEL: u64 = 0xFFF;

// All bits of an address but its two low ones.
const ADDRESS: u64 = 0xFFFF_FFFF_FFFF_FFFC;

// Bits 0 to 2 of CR0.
const CR0: u8 = 0b1110;

// A TEXASR of the model, and one read on hardware.
#[derive(Clone, Copy)]
struct Pair {
    profile: Profile,
    model: u64,
    hardware: u64,
}

// Contradicts by the bits that are wrong, if there are any.
fn unless(wrong: u64, right: Judged) -> Judged
    ensures { result ≡ cond (wrong == 0) right (judgement Verdict.Contradicts wrong) }
{
    if wrong == 0 {
        right
    } else {
        Judged {
            verdict: Verdict::Contradicts,
            bits: wrong,
        }
    }
}

fn is_lost(h: u64) -> bool
    ensures { result ≡ is_lost h }
{
    matches!(told(h), Told::Failed(_)) && thread::tl(h) == 0
}

impl Pair {
    // Hardware may go on where the model failed. A case for each cause, as its definition has them.
    fn may_go_on(self) -> bool
        ensures { result ≡ may_go_on self.profile (told self.model) }
    {
        match told(self.model) {
            Told::Failed(FOOTPRINT..=CONFLICT) => true,
            Told::Failed(TRANSLATION) => self.profile.late,
            _ => false,
        }
    }

    // Hardware went on to level 0, past an invalidation.
    fn is_committed(self) -> bool
        ensures { result ≡ is_committed (told self.model) (told self.hardware) (tl self.hardware) }
    {
        told(self.model) == Told::Failed(TRANSLATION)
            && told(self.hardware) == Told::Open
            && thread::tl(self.hardware) == 0
    }

    // Hardware went on or failed where the model went on or failed by another cause.
    fn may_differ(self) -> bool
        ensures { result ≡ may_differ self.profile (told self.model) (told self.hardware) (tl self.hardware) }
    {
        let cause = told(self.hardware);
        self.may_go_on() && !self.is_committed()
            || self.profile.is_sooner(cause)
            || cause.is_imprecise()
    }

    fn differing(self) -> u64
        ensures { result ≡ differing self.profile self.model self.hardware }
    {
        (self.hardware ^ render::value(self.profile, self.model))
            & render::care(self.profile, self.model)
    }

    // What hardware's has otherwise than its own cause asks for.
    #[tactic(auto, unfolding(hardware::specs::Judge::form))]
    fn form(self) -> u64
        ensures { result ≡ form self.profile self.hardware }
    {
        let own = Pair {
            model: self.hardware,
            ..self
        };
        match own.differing() {
            0 => base::bit(is_lost(self.hardware)) * LEVEL,
            wrong => wrong,
        }
    }

    // By another cause than the model's, or none.
    fn otherwise(self) -> Judged
        ensures { result ≡ otherwise self.profile self.model self.hardware }
    {
        let verdict = if self.may_differ() {
            Verdict::Allowed
        } else {
            Verdict::Contradicts
        };
        unless(
            self.form(),
            Judged {
                verdict,
                bits: (self.hardware ^ self.model) & TELLING,
            },
        )
    }

    // Other bits than the model's value asks for, or level 0.
    #[tactic(auto, unfolding(hardware::specs::Judge::is_other))]
    fn is_other(self) -> bool
        ensures { result ≡ is_other self.profile self.model self.hardware }
    {
        self.differing() != 0
            || thread::tl(self.hardware) == 0
                && thread::tl(render::value(self.profile, self.model)) != 0
    }

    // By the same cause. By 10 to 16 with other bits it may be of another moment.
    fn same(self) -> Judged
        ensures { result ≡ same self.profile self.model self.hardware }
    {
        let bits = self.differing();
        if told(self.model).is_imprecise() && self.is_other() {
            return unless(
                self.form(),
                Judged {
                    verdict: Verdict::Allowed,
                    bits,
                },
            );
        }
        unless(
            bits,
            Judged {
                verdict: Verdict::Equal,
                bits: 0,
            },
        )
    }

    // The address of TFIAR counts: hardware's is exact, and of the thread's own instruction. A case for each
    // cause, as its definition has them.
    fn addressed(self) -> bool
        ensures { result ≡ addressed self.profile (told self.model) self.hardware }
    {
        Flag::Exact.of(self.hardware) == 1
            && match told(self.model) {
                Told::Failed(DISALLOWED | OWN_STORE | ABORT) => true,
                Told::Failed(NESTING) => base::LEVELS <= self.profile.highest,
                _ => false,
            }
    }

    // HV and PR of TFIAR.
    fn low_care(self) -> u64
        ensures value { result ≡ cond (may_be_late self.profile (told self.model)) 0 (cond (is_sooner self.profile (told self.model)) 2 3) }
        ensures upper_bound { result < 4 }
    {
        let cause = told(self.model);
        if self.profile.may_be_late(cause) {
            0
        } else if self.profile.is_sooner(cause) {
            2
        } else {
            3
        }
    }

    fn tfiar_care(self) -> u64
        ensures { result ≡ tfiar_care self.profile (told self.model) self.hardware }
    {
        base::bit(self.addressed()) * ADDRESS + self.low_care()
    }
}

// A TEXASR read on hardware against the model's.
#[tactic(auto, unfolding(hardware::specs::Judge::judged))]
pub fn judged(p: Profile, x: u64, h: u64) -> Judged
    ensures { result ≡ judged p x h }
{
    let pair = Pair {
        profile: p,
        model: x,
        hardware: h,
    };
    match told(h) {
        Told::Torn => Judged {
            verdict: Verdict::Contradicts,
            bits: h & TELLING,
        },
        cause if cause == told(x) => pair.same(),
        _ => pair.otherwise(),
    }
}

// The model's TFIAR with HV by the profile.
pub fn tfiar(p: Profile, m: u64) -> u64
    ensures { result ≡ tfiar p m }
{
    m - m % 4 + base::bit(p.hv) * 2 + m % 2
}

// mfspr gave 0 for TFIAR, or may have.
fn hidden(r: Registers) -> bool
    ensures { result ≡ hidden r.texasr r.tfiar }
{
    r.tfiar == 0 && (Flag::Hypervisor.of(r.texasr) == 1 || Flag::Problem.of(r.texasr) == 0)
}

// Where the TFIAR read on hardware differs from the model's; their TEXASRs, the pair, tell the same cause.
#[tactic(auto, unfolding(hardware::specs::Judge::tfiar_differing))]
fn tfiar_differing(p: Profile, m: Registers, h: Registers) -> u64
    ensures { result ≡ tfiar_differing p m.texasr m.tfiar h.texasr h.tfiar }
{
    if hidden(m) || hidden(h) {
        return 0;
    }
    let pair = Pair {
        profile: p,
        model: m.texasr,
        hardware: h.texasr,
    };
    (h.tfiar ^ tfiar(p, m.tfiar)) & pair.tfiar_care()
}

// The verdict on TEXASR, if the others do not differ: CR0, or one that is of the moment.
fn with_others(cause: Told, j: Judged, tfiar: u64, tfhar: u64, cr0: u8) -> Compared
    ensures { result ≡ with_others (bit_of cause) j tfiar tfhar cr0 }
{
    let verdict = match j.verdict {
        same if cr0 == 0 && tfiar == 0 && tfhar == 0 => same,
        Verdict::Equal | Verdict::Allowed if cr0 == 0 && cause.is_imprecise() => Verdict::Allowed,
        _ => Verdict::Contradicts,
    };
    Compared {
        verdict,
        texasr: j.bits,
        tfiar,
        tfhar,
        cr0,
    }
}

// The registers read on hardware, h, against the model's, m.
#[tactic(auto, unfolding(hardware::specs::Judge::compared))]
pub fn compared(p: Profile, m: Registers, h: Registers) -> Compared
    ensures { result ≡ compared p m h }
{
    let j = judged(p, m.texasr, h.texasr);
    match told(m.texasr) {
        cause @ Told::Failed(_) if cause == told(h.texasr) => with_others(
            cause,
            j,
            tfiar_differing(p, m, h),
            (h.tfhar ^ m.tfhar) & ADDRESS,
            (h.cr0 ^ m.cr0) & CR0,
        ),
        _ => Compared::from(j),
    }
}
