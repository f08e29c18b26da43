// The twenty-six kinds of event, each with its operands and nothing else (rules E1 to E26); the fields of each, and what its row in the table of kinds tells.
#![tactic(auto)]

ghost use Rattle.std.specs.Prelude.{◌≡◌, ◌+◌, ◌*◌, ◌/◌, ◌%◌, ◌≤◌, ◌==◌};
ghost use Rattle.base.specs.Below.{bit};
ghost use Rattle.event.specs.Event.{fields_of, event_of, kind, fields_right, operands_right, tm_instruction, privileged};

use kinds::Row;

// Operands take any value of their width: the step refuses what is out of range. The thread is named beside the event. mtmsrd's T and S are
// TS in two bits, the higher first.
#[derive(Clone, Copy)]
pub enum Event {
    Tbegin {
        r: bool,
    },
    Tend {
        a: bool,
    },
    Tabort {
        ra: u8,
    },
    Tabortwc {
        to: u8,
        ra: u8,
        rb: u8,
    },
    Tabortdc {
        to: u8,
        ra: u8,
        rb: u8,
    },
    Tsr {
        l: bool,
    },
    Tcheck {
        bf: u8,
    },
    Treclaim {
        ra: u8,
    },
    Trechkpt,
    Mtspr {
        spr: u8,
        ra: u8,
    },
    Mfspr {
        rt: u8,
        spr: u8,
    },
    Ld {
        rt: u8,
        index: u32,
    },
    Std {
        ra: u8,
        index: u32,
    },
    Addi {
        rt: u8,
        ra: u8,
        si: u16,
    },
    Disallowed,
    Interrupt,
    Host {
        pr: bool,
        tm: bool,
    },
    Rfid,
    Mtmsrd {
        t: bool,
        s: bool,
        tm: bool,
        pr: bool,
    },
    Lbz {
        rt: u8,
        address: u32,
    },
    Lhz {
        rt: u8,
        address: u32,
    },
    Lwz {
        rt: u8,
        address: u32,
    },
    Stb {
        ra: u8,
        address: u32,
    },
    Sth {
        ra: u8,
        address: u32,
    },
    Stw {
        ra: u8,
        address: u32,
    },
    Tlbie {
        page: u32,
    },
}

// Numbers of kinds, each a byte in `Fields`, as the tape and C have it: any byte may stand there, so they are no enum. `host_parts::failed` needs
// that of tend.; the others name kinds in `fields_of`. specs/Event.antt has the same for the definitions.
pub const TEND: u8 = 2;

pub const TRECLAIM: u8 = 8;

pub const TRECHKPT: u8 = 9;

pub const MTSPR: u8 = 10;

pub const HOST: u8 = 17;

pub const RFID: u8 = 18;

pub const MTMSRD: u8 = 19;

pub const TLBIE: u8 = 26;

// What a record holds, whatever its layout. X is SPR, BF or TO, else RT; RA is RT for mfspr; flags are R, A, L, PR + 2 x TM or
// TS + 4 x TM + 8 x PR.
#[repr(C)]
#[derive(Clone, Copy)]
pub struct Fields {
    pub kind: u8,
    pub thread: u8,
    pub x: u8,
    pub ra: u8,
    pub rb: u8,
    pub flags: u8,
    pub index: u32,
    pub si: u16,
}

// A single bit among the flags, with the bound that the sums of flags need.
fn flag(b: bool) -> u8
    ensures value { result ≡ bit b }
    ensures upper_bound { result ≤ 1 }
{
    u8::from(b)
}

// The fields of an event. A case names those that its kind uses; the others are 0. No `From`: the thread stands beside the event.
#[tactic(auto, unfolding(crate::specs::Event::fields_of))]
pub fn fields_of(thread: u8, e: Event) -> Fields
    ensures { result ≡ fields_of thread e }
{
    let none = Fields {
        kind: 0,
        thread,
        x: 0,
        ra: 0,
        rb: 0,
        flags: 0,
        index: 0,
        si: 0,
    };
    match e {
        Event::Tbegin { r } => Fields {
            kind: 1,
            flags: flag(r),
            ..none
        },
        Event::Tend { a } => Fields {
            kind: TEND,
            flags: flag(a),
            ..none
        },
        Event::Tabort { ra } => Fields {
            kind: 3,
            ra,
            ..none
        },
        Event::Tabortwc { to, ra, rb } => Fields {
            kind: 4,
            x: to,
            ra,
            rb,
            ..none
        },
        Event::Tabortdc { to, ra, rb } => Fields {
            kind: 5,
            x: to,
            ra,
            rb,
            ..none
        },
        Event::Tsr { l } => Fields {
            kind: 6,
            flags: flag(l),
            ..none
        },
        Event::Tcheck { bf } => Fields {
            kind: 7,
            x: bf,
            ..none
        },
        Event::Treclaim { ra } => Fields {
            kind: TRECLAIM,
            ra,
            ..none
        },
        Event::Trechkpt => Fields {
            kind: TRECHKPT,
            ..none
        },
        Event::Mtspr { spr, ra } => Fields {
            kind: MTSPR,
            x: spr,
            ra,
            ..none
        },
        Event::Mfspr { rt, spr } => Fields {
            kind: 11,
            x: spr,
            ra: rt,
            ..none
        },
        Event::Ld { rt, index } => Fields {
            kind: 12,
            x: rt,
            index,
            ..none
        },
        Event::Std { ra, index } => Fields {
            kind: 13,
            ra,
            index,
            ..none
        },
        Event::Addi { rt, ra, si } => Fields {
            kind: 14,
            x: rt,
            ra,
            si,
            ..none
        },
        Event::Disallowed => Fields { kind: 15, ..none },
        Event::Interrupt => Fields { kind: 16, ..none },
        Event::Host { pr, tm } => Fields {
            kind: HOST,
            flags: flag(pr) + 2 * flag(tm),
            ..none
        },
        Event::Rfid => Fields { kind: RFID, ..none },
        Event::Mtmsrd { t, s, tm, pr } => Fields {
            kind: MTMSRD,
            flags: flag(s) + 2 * flag(t) + 4 * flag(tm) + 8 * flag(pr),
            ..none
        },
        Event::Lbz { rt, address } => Fields {
            kind: 20,
            x: rt,
            index: address,
            ..none
        },
        Event::Lhz { rt, address } => Fields {
            kind: 21,
            x: rt,
            index: address,
            ..none
        },
        Event::Lwz { rt, address } => Fields {
            kind: 22,
            x: rt,
            index: address,
            ..none
        },
        Event::Stb { ra, address } => Fields {
            kind: 23,
            ra,
            index: address,
            ..none
        },
        Event::Sth { ra, address } => Fields {
            kind: 24,
            ra,
            index: address,
            ..none
        },
        Event::Stw { ra, address } => Fields {
            kind: 25,
            ra,
            index: address,
            ..none
        },
        Event::Tlbie { page } => Fields {
            kind: TLBIE,
            index: page,
            ..none
        },
    }
}

// The event of fields of a right kind. No `From`: of another kind it is no event's, and no `TryFrom`: the reader judges before (`of_kind`).
#[tactic(auto, unfolding(crate::specs::Event::event_of))]
pub fn event_of(f: Fields) -> Event
    ensures { result ≡ event_of f }
{
    let Fields {
        kind,
        x,
        ra,
        rb,
        flags,
        index,
        si,
        ..
    } = f;
    let one = flags == 1;
    match kind {
        1 => Event::Tbegin { r: one },
        2 => Event::Tend { a: one },
        3 => Event::Tabort { ra },
        4 => Event::Tabortwc { to: x, ra, rb },
        5 => Event::Tabortdc { to: x, ra, rb },
        6 => Event::Tsr { l: one },
        7 => Event::Tcheck { bf: x },
        8 => Event::Treclaim { ra },
        9 => Event::Trechkpt,
        10 => Event::Mtspr { spr: x, ra },
        11 => Event::Mfspr { rt: ra, spr: x },
        12 => Event::Ld { rt: x, index },
        13 => Event::Std { ra, index },
        14 => Event::Addi { rt: x, ra, si },
        15 => Event::Disallowed,
        16 => Event::Interrupt,
        17 => Event::Host {
            pr: flags % 2 == 1,
            tm: flags / 2 % 2 == 1,
        },
        18 => Event::Rfid,
        19 => Event::Mtmsrd {
            t: flags / 2 % 2 == 1,
            s: flags % 2 == 1,
            tm: flags / 4 % 2 == 1,
            pr: flags / 8 % 2 == 1,
        },
        20 => Event::Lbz {
            rt: x,
            address: index,
        },
        21 => Event::Lhz {
            rt: x,
            address: index,
        },
        22 => Event::Lwz {
            rt: x,
            address: index,
        },
        23 => Event::Stb { ra, address: index },
        24 => Event::Sth { ra, address: index },
        25 => Event::Stw { ra, address: index },
        _ => Event::Tlbie { page: index },
    }
}

// The number of an event's kind.
#[tactic(auto, unfolding(crate::specs::Event::kind))]
pub fn kind(e: Event) -> u8
    ensures { result ≡ kind e }
{
    fields_of(0, e).kind
}

// Each used field is in range, and what a used index names in a memory of len doublewords. Joined by &, without a branch: events that
// `refusal::refused` does not let pass at once are tested here.
fn fields_right(r: Row, f: Fields, len: usize) -> bool
    ensures { result ≡ fields_right r f len }
{
    r.x.has(f.x) & r.ra.has(f.ra) & r.rb.has(f.rb) & r.index.in_memory(f.index, len)
}

// Number 4 is given unless the operands are right.
#[tactic(auto, unfolding(crate::specs::Event::operands_right, crate::specs::Event::kind))]
pub fn operands_right(e: Event, len: usize) -> bool
    ensures { result ≡ operands_right e len }
{
    let f = fields_of(0, e);
    fields_right(kinds_table::row(f.kind), f, len)
}

// Number 11 is for these. It and `privileged` read two columns of the row, each with its own definition: one function of both would take a closure
// for a field.
#[tactic(auto, unfolding(crate::specs::Event::tm_instruction, crate::specs::Event::kind))]
pub fn tm_instruction(e: Event) -> bool
    ensures { result ≡ tm_instruction e }
{
    let f = fields_of(0, e);
    kinds_table::row(f.kind).tm.holds(f.x)
}

// Number 12 is for these.
#[tactic(auto, unfolding(crate::specs::Event::privileged, crate::specs::Event::kind))]
pub fn privileged(e: Event) -> bool
    ensures { result ≡ privileged e }
{
    let f = fields_of(0, e);
    kinds_table::row(f.kind).privileged.holds(f.x)
}
