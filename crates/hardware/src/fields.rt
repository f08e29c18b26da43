// The fields of a TEXASR, and the cause that it tells.
ghost use Rattle.std.specs.Prelude.{◌≡◌, ◌<◌, ◌^◌};
ghost use Rattle.thread.specs.Texasr.{weight};
ghost use Rattle.hardware.specs.Fields.{bit_at, code, causes, named, one_of, told};
ghost use Rattle.hardware.specs.Inner.{place, told_by, bit_of};

use crate::{Flag, Told};

// The causes that the text names, each by its bit; 15 and 16 are a processor's alone. Numbers: `Told` says why.
pub const DISALLOWED: u64 = 8;

pub const NESTING: u64 = 9;

pub const FOOTPRINT: u64 = 10;

pub const OWN_STORE: u64 = 11;

pub const PLAIN_CONFLICT: u64 = 12;

pub const CONFLICT: u64 = 13;

pub const TRANSLATION: u64 = 14;

pub const IMPLEMENTATION: u64 = 15;

pub const FETCH: u64 = 16;

pub const ABORT: u64 = 31;

impl Flag {
    pub fn weight(self) -> u64
        ensures value { result ≡ weight (place self) }
        ensures lower_bound { 0 < result }
    {
        1 << (63 - self as u64)
    }

    // In a TEXASR. The bound is asked by `thread::packed`.
    pub fn of(self, x: u64) -> u64
        ensures value { result ≡ bit_at (place self) x }
        ensures upper_bound { result < 2 }
    {
        x / self.weight() % 2
    }
}

// Bits 0:7 and 8:31, each by one expression: one function of both would have the two numbers at each call.
pub fn code(x: u64) -> u64
    ensures value { result ≡ code x }
    ensures upper_bound { result < 2 ^ 8 }
{
    x / 0x100_0000_0000_0000 % 0x100
}

pub fn causes(x: u64) -> u64
    ensures value { result ≡ causes x }
    ensures upper_bound { result < 2 ^ 24 }
{
    x / 0x1_0000_0000 % 0x100_0000
}

// The one cause among bits 8:31: a case for each bit.
#[tactic(auto, unfolding(crate::specs::Fields::one_of))]
fn one_of(c: u64) -> Told
    ensures value { result ≡ told_by (one_of named c) }
    ensures number { bit_of result ≡ one_of named c }
{
    match c {
        0x80_0000 => Told::Failed(DISALLOWED),
        0x40_0000 => Told::Failed(NESTING),
        0x20_0000 => Told::Failed(FOOTPRINT),
        0x10_0000 => Told::Failed(OWN_STORE),
        0x08_0000 => Told::Failed(PLAIN_CONFLICT),
        0x04_0000 => Told::Failed(CONFLICT),
        0x02_0000 => Told::Failed(TRANSLATION),
        0x01_0000 => Told::Failed(IMPLEMENTATION),
        0x00_8000 => Told::Failed(FETCH),
        0x00_0001 => Told::Failed(ABORT),
        _ => Told::Torn,
    }
}

// What a TEXASR tells.
#[tactic(auto, unfolding(crate::specs::Fields::told))]
pub fn told(x: u64) -> Told
    ensures value { result ≡ told_by (told x) }
    ensures number { bit_of result ≡ told x }
{
    if Flag::Summary.of(x) == 1 {
        one_of(causes(x))
    } else {
        Told::Open
    }
}
