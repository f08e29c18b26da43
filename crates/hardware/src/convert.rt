// Conversions between the types of this crate, and from a host's number.
ghost use Rattle.std.specs.Prelude.{◌≡◌, cond, nat_le, Ok, Err};
ghost use Rattle.base.specs.declared.answer.Refusal.TheVariants.{Operand};
ghost use Rattle.hardware.specs.Table.{seventh_of};
ghost use Rattle.hardware.specs.Judge.{only};

use crate::{Compared, Judged, Seventh};
use base::answer::Refusal;

// 0, 1, or 2 where it is free.
impl TryFrom<u8> for Seventh {
    type Error = Refusal;

    ghost try_from_gives = { λ n r. r ≡ cond (nat_le n 2) (Ok (seventh_of n)) (Err Operand) };

    fn try_from(n: u8) -> Result<Seventh, Refusal> {
        match n {
            0 => Ok(Seventh::Zero),
            1 => Ok(Seventh::One),
            2 => Ok(Seventh::Free),
            _ => Err(Refusal::Operand),
        }
    }
}

// TEXASR alone was judged. One impl a type, a field a line: the library's form.
impl From<Judged> for Compared {
    ghost from_gives = { λ j c. c ≡ only j };

    fn from(j: Judged) -> Compared {
        Compared {
            verdict: j.verdict,
            texasr: j.bits,
            tfiar: 0,
            tfhar: 0,
            cr0: 0,
        }
    }
}
