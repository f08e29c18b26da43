// The table of kinds: a row for each (rules E1 to E26).
#![tactic(auto)]

ghost use Rattle.std.specs.Prelude.{◌≡◌, false};
ghost use Rattle.kinds.specs.Rows.{line, row};
ghost use Rattle.kinds.specs.declared.Use.TheVariants.{No, Gpr};
ghost use Rattle.kinds.specs.declared.When.TheVariants.{Never};

use kinds::{Row, Span, Use, When};

// The row of a kind that uses no field. A line of the table names what sets its kind apart.
const BARE: Row = Row {
    x: Use::No,
    ra: Use::No,
    rb: Use::No,
    flags: 0,
    index: Span::Without,
    si: false,
    tm: When::Never,
    privileged: When::Never,
};

// That of a TM instruction.
const TM: Row = Row {
    x: Use::No,
    ra: Use::No,
    rb: Use::No,
    flags: 0,
    index: Span::Without,
    si: false,
    tm: When::Always,
    privileged: When::Never,
};

// A load has its register in X, a store in RA; the index says what of memory. Two functions: one would have to take the uses of both fields.
// One line each: a parameter for the field would be a switch.
fn load(index: Span) -> Row
    ensures { result ≡ line Gpr No No 0 index false Never Never }
{
    Row {
        x: Use::Gpr,
        index,
        ..BARE
    }
}

fn store(index: Span) -> Row
    ensures { result ≡ line No Gpr No 0 index false Never Never }
{
    Row {
        ra: Use::Gpr,
        index,
        ..BARE
    }
}

// The row of a kind. A number that is no kind uses nothing. By the number, which stands on the tape: `row` is defined of any.
#[tactic(auto, unfolding(kinds::specs::Rows::row, kinds::specs::Rows::rows))]
pub fn row(kind: u8) -> Row
    ensures { result ≡ row kind }
{
    match kind {
        1..=2 | 6 => Row { flags: 1, ..TM },
        3 => Row { ra: Use::Gpr, ..TM },
        4..=5 => Row {
            x: Use::To,
            ra: Use::Gpr,
            rb: Use::Gpr,
            ..TM
        },
        7 => Row { x: Use::Bf, ..TM },
        8 => Row {
            ra: Use::Gpr,
            privileged: When::Always,
            ..TM
        },
        9 => Row {
            privileged: When::Always,
            ..TM
        },
        10..=11 => Row {
            x: Use::Spr,
            ra: Use::Gpr,
            tm: When::TmSpr,
            privileged: When::Srr,
            ..BARE
        },
        12 => load(Span::Doubleword),
        13 => store(Span::Doubleword),
        14 => Row {
            x: Use::Gpr,
            ra: Use::Gpr,
            si: true,
            ..BARE
        },
        15..=16 => BARE,
        17 => Row { flags: 3, ..BARE },
        18 => Row {
            privileged: When::Always,
            ..BARE
        },
        19 => Row {
            flags: 15,
            privileged: When::Always,
            ..BARE
        },
        20 => load(Span::Byte),
        21 => load(Span::Halfword),
        22 => load(Span::Word),
        23 => store(Span::Byte),
        24 => store(Span::Halfword),
        25 => store(Span::Word),
        26 => Row {
            index: Span::Page,
            privileged: When::Always,
            ..BARE
        },
        _ => BARE,
    }
}
