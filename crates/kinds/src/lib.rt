// A kind's row: what it uses each field for, and what follows. All rows: `kinds_table`.
#![tactic(auto)]

ghost use Rattle.std.specs.Prelude.{◌≡◌, ◌<◌};
ghost use Rattle.kinds.specs.Rows.{used, tm_spr, srr, in_range, spans, addressed, in_memory, holds};

use base::{CR_FIELDS, DOUBLEWORD_BYTES, GPRS, PAGE};

// What a kind uses a field for. A case for nothing, and no Option, here and in `Span`: `used`, `in_range`, `spans` and `in_memory` of specs/Rows
// have one, and `rows` is written with it.
#[derive(Clone, Copy)]
pub enum Use {
    No,
    Gpr,
    To,
    Bf,
    Spr,
}

// What a kind's index names: nothing, a doubleword, one, two or four bytes by the first one's address, or a page.
#[derive(Clone, Copy)]
pub enum Span {
    Without,
    Doubleword,
    Byte,
    Halfword,
    Word,
    Page,
}

// Whether a kind is a TM instruction, or privileged: a function of X. Two are for SPR 128 to 131, and for SPR 26 and 27.
#[derive(Clone, Copy)]
pub enum When {
    Never,
    Always,
    TmSpr,
    Srr,
}

// The fields X, RA and RB, the largest flags, the fields index and SI, and what the kind is.
#[derive(Clone, Copy)]
pub struct Row {
    pub x: Use,
    pub ra: Use,
    pub rb: Use,
    pub flags: u8,
    pub index: Span,
    pub si: bool,
    pub tm: When,
    pub privileged: When,
}

// SPR 128 to 131: the failure registers. It and `srr` are two ranges, each of its own rule: one function would take both bounds.
fn tm_spr(v: u8) -> bool
    ensures { result ≡ tm_spr v }
{
    matches!(v, 128..=131)
}

// SPR 26 and 27: SRR0 and SRR1.
fn srr(v: u8) -> bool
    ensures { result ≡ srr v }
{
    matches!(v, 26..=27)
}

impl Use {
    // Whether the field is used at all: one that is not is 0 in a record.
    pub fn is_used(self) -> bool
        ensures { result ≡ used self }
    {
        !matches!(self, Use::No)
    }

    // A field as its use wants it.
    pub fn has(self, v: u8) -> bool
        ensures { result ≡ in_range self v }
    {
        match self {
            Use::No => true,
            Use::Gpr => (v as usize) < GPRS,
            Use::To => v < 32,
            Use::Bf => v as usize <= CR_FIELDS,
            Use::Spr => srr(v) | tm_spr(v),
        }
    }
}

// A byte address in a memory of len doublewords is a multiple of the access's width. Eight times len could wrap, so the address is divided. The
// width is above 0, as the definition divides by it.
fn addressed(width: u32, i: u32, len: usize) -> bool
    requires { 0 < width }
    ensures { result ≡ addressed width i len }
{
    (i % width == 0) & ((i as usize) / DOUBLEWORD_BYTES < len)
}

impl Span {
    // Whether the index field is used. As of `Use`: one line for each enum.
    pub fn is_used(self) -> bool
        ensures { result ≡ spans self }
    {
        !matches!(self, Span::Without)
    }

    // A doubleword is in a memory of len doublewords, and so are the bytes at an address, and the first line of a page.
    pub fn in_memory(self, i: u32, len: usize) -> bool
        ensures { result ≡ in_memory self i len }
    {
        match self {
            Span::Without => true,
            Span::Doubleword => (i as usize) < len,
            Span::Byte => addressed(1, i, len),
            Span::Halfword => addressed(2, i, len),
            Span::Word => addressed(4, i, len),
            Span::Page => PAGE * (i as usize) < len,
        }
    }
}

impl When {
    // Whether it is so with X: a case for each, as `holds` is defined.
    pub fn holds(self, x: u8) -> bool
        ensures { result ≡ holds self x }
    {
        match self {
            When::Never => false,
            When::Always => true,
            When::TmSpr => tm_spr(x),
            When::Srr => srr(x),
        }
    }
}
