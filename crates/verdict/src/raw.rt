// The comparison on plain numbers, which any bits may be: what crate `host` gives hosts.
ghost use Rattle.std.specs.Prelude.{◌≡◌, cond, nat_le, ◌==◌, Ok, Err};
ghost use Rattle.base.specs.declared.answer.Refusal.TheVariants.{Operand};
ghost use Rattle.verdict.specs.Raw.{right, profile_of, registers_of, taken, show, told_as, compare};

use base::answer::{Completion, Refusal};
use hardware::{Compared, Profile, Registers, Seventh, Told, fields, render, table};

// The four types that cross to C: numbers for enums and flags, an answer beside the values that it goes with, and registers of a type apart,
// since `compare` (specs/Raw) and `naszeptan_compare` have it.

// A profile: bit 7 of nesting is 0, 1, or 2 where it is free.
#[repr(C)]
#[derive(Clone, Copy)]
pub struct RawProfile {
    pub highest: u64,
    pub hv: u8,
    pub late: u8,
    pub seventh: u8,
}

#[repr(C)]
#[derive(Clone, Copy)]
pub struct RawRegisters {
    pub texasr: u64,
    pub tfiar: u64,
    pub tfhar: u64,
    pub cr0: u8,
}

// 0 with what hardware shows and the bits that are fixed; or 4 and zeros.
#[repr(C)]
#[derive(Clone, Copy)]
pub struct RawShown {
    pub answer: u8,
    pub value: u64,
    pub care: u64,
}

// 0 with the verdict, 0 equal, 1 allowed, 2 contradicts, and the bits that decide it; or 4 and zeros.
#[repr(C)]
#[derive(Clone, Copy)]
pub struct RawVerdict {
    pub answer: u8,
    pub verdict: u8,
    pub cr0: u8,
    pub texasr: u64,
    pub tfiar: u64,
    pub tfhar: u64,
}

// A bit of a profile. No `TryFrom`: neither bool nor u8 is this crate's.
fn flag(n: u8) -> Result<bool, Refusal>
    ensures { result ≡ cond (nat_le n 1) (Ok (n == 1)) (Err Operand) }
{
    match n {
        0 => Ok(false),
        1 => Ok(true),
        _ => Err(Refusal::Operand),
    }
}

impl TryFrom<RawProfile> for Profile {
    type Error = Refusal;

    ghost try_from_gives = { λ p r. r ≡ cond (right p) (Ok (profile_of p)) (Err Operand) };

    fn try_from(p: RawProfile) -> Result<Profile, Refusal> {
        if !table::is_highest(p.highest) {
            return Err(Refusal::Operand);
        }
        Ok(Profile {
            highest: p.highest,
            hv: flag(p.hv)?,
            late: flag(p.late)?,
            seventh: Seventh::try_from(p.seventh)?,
        })
    }
}

// C's type and the code's, a field a line; so is the next.
impl From<RawRegisters> for Registers {
    ghost from_gives = { λ r s. s ≡ registers_of r };

    fn from(r: RawRegisters) -> Registers {
        Registers {
            texasr: r.texasr,
            tfiar: r.tfiar,
            tfhar: r.tfhar,
            cr0: r.cr0,
        }
    }
}

impl From<Compared> for RawVerdict {
    ghost from_gives = { λ c v. v ≡ told_as c };

    fn from(c: Compared) -> RawVerdict {
        RawVerdict {
            answer: Completion::Done.number(),
            verdict: c.verdict as u8,
            cr0: c.cr0,
            texasr: c.texasr,
            tfiar: c.tfiar,
            tfhar: c.tfhar,
        }
    }
}

// The profile that a TEXASR of the model is shown by; it must tell one cause or none.
fn taken(p: RawProfile, x: u64) -> Result<Profile, Refusal>
    ensures { result ≡ cond (taken p x) (Ok (profile_of p)) (Err Operand) }
{
    if fields::told(x) == Told::Torn {
        return Err(Refusal::Operand);
    }
    Profile::try_from(p)
}

// What hardware shows for a TEXASR of the model.
#[tactic(auto, unfolding(crate::specs::Raw::show))]
pub fn show(p: RawProfile, x: u64) -> RawShown
    ensures { result ≡ show p x }
{
    match taken(p, x) {
        Ok(profile) => RawShown {
            answer: Completion::Done.number(),
            value: render::value(profile, x),
            care: render::care(profile, x),
        },
        Err(refusal) => RawShown {
            answer: refusal.number(),
            value: 0,
            care: 0,
        },
    }
}

// The registers read on hardware, h, against the model's, m.
#[tactic(auto, unfolding(crate::specs::Raw::compare))]
pub fn compare(p: RawProfile, m: RawRegisters, h: RawRegisters) -> RawVerdict
    ensures { result ≡ compare p m h }
{
    match taken(p, m.texasr) {
        Ok(profile) => {
            RawVerdict::from(crate::compared(profile, Registers::from(m), Registers::from(h)))
        }
        Err(refusal) => RawVerdict {
            answer: refusal.number(),
            verdict: 0,
            cr0: 0,
            texasr: 0,
            tfiar: 0,
            tfhar: 0,
        },
    }
}
