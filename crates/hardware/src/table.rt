// What the Power ISA text fixes for each cause. The bounds are those that `thread::packed` and the sums of `render` ask for.
ghost use Rattle.std.specs.Prelude.{◌≡◌, ◌<◌, ◌^◌};
ghost use Rattle.hardware.specs.Inner.{bit_of};
ghost use Rattle.hardware.specs.Table.{seven, is_free, first_byte, may_be_exact, is_exact, exact, is_imprecise, may_be_late, is_sooner, level, level_bits, level_care, is_highest};

use crate::fields::{
    ABORT, CONFLICT, DISALLOWED, FETCH, FOOTPRINT, IMPLEMENTATION, NESTING, OWN_STORE,
    PLAIN_CONFLICT,
};
use crate::{Profile, Seventh, Told};

impl Seventh {
    // The register's bit, and not C's number for the case (`TryFrom<u8>`): 1 where it is free.
    pub fn bit(self) -> u64
        ensures value { result ≡ seven self }
        ensures upper_bound { result < 2 }
    {
        match self {
            Seventh::Zero => 0,
            Seventh::Free | Seventh::One => 1,
        }
    }

    pub fn is_free(self) -> bool
        ensures { result ≡ is_free self }
    {
        self == Seventh::Free
    }
}

impl Told {
    // Bits 0:7.
    pub fn first_byte(self, seventh: Seventh, code: u64) -> u64
        requires { code < 2 ^ 8 }
        ensures value { result ≡ first_byte seventh (bit_of self) code }
        ensures upper_bound { result < 2 ^ 8 }
    {
        match self {
            Told::Failed(ABORT) => code,
            Told::Failed(NESTING) => seventh.bit(),
            Told::Failed(PLAIN_CONFLICT..) => 0,
            _ => 1,
        }
    }

    pub fn may_be_exact(self) -> bool
        ensures { result ≡ may_be_exact (bit_of self) }
    {
        matches!(
            self,
            Told::Failed(OWN_STORE | CONFLICT | IMPLEMENTATION | FETCH)
        )
    }

    pub fn is_exact(self) -> bool
        ensures { result ≡ is_exact (bit_of self) }
    {
        matches!(self, Told::Failed(DISALLOWED | NESTING | ABORT))
    }

    // Bit 37.
    pub fn exact(self, was: u64) -> u64
        requires { was < 2 }
        ensures value { result ≡ exact (bit_of self) was }
        ensures upper_bound { result < 2 }
    {
        if self.may_be_exact() {
            was
        } else {
            base::bit(self.is_exact())
        }
    }

    pub fn is_imprecise(self) -> bool
        ensures { result ≡ is_imprecise (bit_of self) }
    {
        matches!(self, Told::Failed(FOOTPRINT..=FETCH))
    }
}

impl Profile {
    pub fn may_be_late(self, told: Told) -> bool
        ensures { result ≡ may_be_late self (bit_of told) }
    {
        self.late && told.is_imprecise()
    }

    // A nesting overflow at a lower highest level than the model's.
    pub fn is_sooner(self, told: Told) -> bool
        ensures { result ≡ is_sooner self (bit_of told) }
    {
        matches!(told, Told::Failed(NESTING)) && self.highest < base::LEVELS
    }

    // The level's bits that count, which are also the highest level.
    pub fn level_bits(self) -> u64
        ensures value { result ≡ level_bits self }
        ensures upper_bound { result < 2 ^ 12 }
    {
        self.highest % 0x1000
    }

    // Those that are compared.
    pub fn level_care(self, l: u64) -> u64
        ensures value { result ≡ level_care self l }
        ensures upper_bound { result < 2 ^ 12 }
    {
        let bits = self.level_bits();
        if l <= bits { bits } else { 0xFFF }
    }

    pub fn level(self, told: Told, was: u64) -> u64
        requires { was < 2 ^ 12 }
        ensures value { result ≡ level self (bit_of told) was }
        ensures upper_bound { result < 2 ^ 12 }
    {
        if matches!(told, Told::Failed(NESTING)) {
            self.level_bits()
        } else {
            was
        }
    }
}

// 15, 31 and so on to 4,095.
#[tactic(auto, unfolding(crate::specs::Table::is_highest))]
pub fn is_highest(n: u64) -> bool
    ensures { result ≡ is_highest 8 n }
{
    matches!(n, 15 | 31 | 63 | 127 | 255 | 511 | 1023 | 2047 | 4095)
}
