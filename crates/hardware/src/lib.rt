// A failure that an event recorded, as a POWER processor shows it (rules B2 to B5): the bits of TEXASR that the Power ISA text fixes, and those
// that it leaves free; docs/ISA-DIFFERENCES.md has the reasons. A value read on one is judged in crate `verdict`, by definitions of this one.
#![tactic(auto)]

pub mod convert;
pub mod fields;
pub mod render;
pub mod table;

// The bits of TEXASR that are one bit wide and not a cause, by their place, with bit 0 the highest.
#[derive(Clone, Copy)]
pub enum Flag {
    Suspended = 32,
    Hypervisor = 34,
    Problem = 35,
    Summary = 36,
    Exact = 37,
    Rot = 38,
}

// What a TEXASR tells: no failure, FS = 0; one without exactly one cause; or one by the cause that this bit stands for. The cause is a number,
// from 8 on, and no enum: what `table` says of a cause it says of each number, one that the text names or one that it keeps for later.
#[derive(Clone, Copy, PartialEq, Eq)]
pub enum Told {
    Open,
    Torn,
    Failed(u64),
}

// What a processor has in bit 7 after a nesting overflow: the text is of two minds.
#[derive(Clone, Copy, PartialEq, Eq)]
pub enum Seventh {
    Free,
    Zero,
    One,
}

// What is known of the processor: the highest level, HV, whether an imprecise failure may be recorded late, and bit 7 of nesting.
// C hands in `verdict::raw::RawProfile`.
#[derive(Clone, Copy)]
pub struct Profile {
    pub highest: u64,
    pub hv: bool,
    pub late: bool,
    pub seventh: Seventh,
}

// The value is the one that the text asks for; it is another, as the text allows; it contradicts the text, or the tape. Hosts have the numbers.
#[derive(Clone, Copy, PartialEq, Eq)]
pub enum Verdict {
    Equal = 0,
    Allowed = 1,
    Contradicts = 2,
}

// A verdict with the bits that decide it. Both are always there, so it is no Result: `judgement` in specs/Judge is the pair.
#[derive(Clone, Copy)]
pub struct Judged {
    pub verdict: Verdict,
    pub bits: u64,
}

// The registers that tell of a failure, as a handler reads them. C hands in `verdict::raw::RawRegisters`.
#[derive(Clone, Copy)]
pub struct Registers {
    pub texasr: u64,
    pub tfiar: u64,
    pub tfhar: u64,
    pub cr0: u8,
}

// A verdict on all four, with the bits of each that decide it. All are always there, as in `Judged`.
#[derive(Clone, Copy)]
pub struct Compared {
    pub verdict: Verdict,
    pub texasr: u64,
    pub tfiar: u64,
    pub tfhar: u64,
    pub cr0: u8,
}
