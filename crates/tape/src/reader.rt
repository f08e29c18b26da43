// The reader of one record of this version's tape, and what it has in common with that of any edition.
ghost use Rattle.std.specs.Prelude.{◌≡◌};
ghost use Rattle.event.specs.Event.{event_of};
ghost use Rattle.tape.specs.Tape.{unused_clear, judged, of_kind, read, number};

use crate::layout::{Layout, Three};
use crate::{RECORD_SIZE, Read, layout};
use base::answer;
use event::{Event, Fields};
use kinds::Row;

// Every field that the row does not use is 0, and the flags are not too big. Joined by & and |, here and in `of_kind`: with && and ||, which
// branch by the kind, a record of any kind takes twice as long.
#[tactic(auto, unfolding(crate::specs::Tape::unused_clear))]
pub fn unused_clear(r: Row, f: Fields) -> bool
    ensures { result ≡ unused_clear r f }
{
    (r.x.is_used() | (f.x == 0))
        & (r.ra.is_used() | (f.ra == 0))
        & (r.rb.is_used() | (f.rb == 0))
        & (f.flags <= r.flags)
        & (r.index.is_used() | (f.index == 0))
        & (r.si | (f.si == 0))
}

// The thread and the event of a record that is clear where its row wants it, else number 9, as `Read` has it.
#[tactic(auto, unfolding(crate::specs::Tape::judged))]
fn judged(f: Fields, clear: bool) -> Read
    ensures { result ≡ judged f clear }
{
    if !clear {
        return Read::Refused(answer::FIELD);
    }
    Read::Record {
        thread: f.thread,
        event: event::event_of(f),
    }
}

// The kind chooses the row; all other values are refused by 8.
#[tactic(auto, unfolding(crate::specs::Tape::of_kind, kinds::specs::Rows::kind_right))]
pub fn of_kind(f: Fields, zero: bool) -> Read
    ensures { result ≡ of_kind f zero }
{
    match f.kind {
        1..=26 => judged(f, zero & unused_clear(kinds_table::row(f.kind), f)),
        _ => Read::Refused(answer::NO_KIND),
    }
}

// The event of fields of a right kind, with a case for each frequent kind: tbegin., tend., tabortwc., tabortdc., tsr., mfspr, ld, std, addi,
// lwz, stw. There the compiler knows the event's shape. Any other event comes back in a place of its own: were it that of the frequent ones,
// all would go through memory. It is made of fields that are laid out anew, so that the others' fields do not stand in memory either.
#[tactic(auto, unfolding(event::specs::Event::event_of))]
fn frequent(f: Fields) -> Event
    ensures { result ≡ event_of f }
{
    let Fields {
        kind,
        thread,
        x,
        ra,
        rb,
        flags,
        index,
        si,
    } = f;
    let one = flags == 1;
    match kind {
        1 => Event::Tbegin { r: one },
        2 => Event::Tend { a: one },
        4 => Event::Tabortwc { to: x, ra, rb },
        5 => Event::Tabortdc { to: x, ra, rb },
        6 => Event::Tsr { l: one },
        11 => Event::Mfspr { rt: ra, spr: x },
        12 => Event::Ld { rt: x, index },
        13 => Event::Std { ra, index },
        14 => Event::Addi { rt: x, ra, si },
        22 => Event::Lwz {
            rt: x,
            address: index,
        },
        25 => Event::Stw { ra, address: index },
        _ => {
            let own = Fields {
                kind,
                thread,
                x,
                ra,
                rb,
                flags,
                index,
                si,
            };
            let other = event::event_of(own);
            other
        }
    }
}

// A lone record. Refused by 6, 7, 8, 9 in this order.
#[tactic(auto, unfolding(crate::specs::Tape::read))]
pub fn read(s: &[u8]) -> Read
    ensures { result ≡ read s.now }
{
    layout::read::<Three>(s)
}

// The same for a run, which alone calls it, and has judged all records before (`tape_whole`). The compiler then puts the frequent kinds into the
// run's loop (docs/PERFORMANCE.md).
#[tactic(auto, using(crate::proofs::Laws::taken))]
pub fn read_judged(s: &[u8]) -> Read
    requires { number (read s.now) ≡ 0 }
    ensures { result ≡ read s.now }
{
    let Ok(record) = <&[u8; RECORD_SIZE]>::try_from(s) else {
        unreachable!()
    };
    let f = Three::fields_at(record);
    Read::Record {
        thread: f.thread,
        event: frequent(f),
    }
}
