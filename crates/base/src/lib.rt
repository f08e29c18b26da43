// The limits (rules M1 to M11, M16, M17, V1, V9). specs/Limits.antt has the same numbers for the definitions: change both together.
#![tactic(auto)]

pub mod answer;

ghost use Rattle.std.specs.Prelude.{◌≡◌, ◌<◌};
ghost use Rattle.base.specs.Below.{bit};

// Bytes of a doubleword.
pub const DOUBLEWORD_BYTES: usize = 8;

// Doublewords of a line, and lines of the largest memory.
pub const LINE: usize = 16;

pub const LINES: usize = 256;

// Doublewords of the largest memory, which is the fresh machine's.
pub const MEMORY: usize = 4096;

// Words of a line set, of 64 lines each.
pub const WORDS: usize = 4;

// Doublewords of a page, which is 32 lines, half a word of a line set.
pub const PAGE: usize = 512;

// The most lines that a transaction's footprint has, and the most places that its log has.
pub const FOOTPRINT: u32 = 32;

pub const PLACES: usize = 64;

// The deepest nesting: the most that the 12 bits of TL hold.
pub const LEVELS: u64 = 4095;

// General registers, and the CR fields that a checkpoint has: 1 to 7.
pub const GPRS: usize = 32;

pub const CR_FIELDS: usize = 7;

// Thread records of a machine.
pub const THREADS: usize = 4;

// A single bit as a number, with the bound that sums of bits need.
pub fn bit(b: bool) -> u64
    ensures value { result ≡ bit b }
    ensures upper_bound { result < 2 }
{
    u64::from(b)
}
