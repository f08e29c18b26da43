// The tape: records of 16 bytes, one event each (rules T1 to T7).
#![tactic(auto)]

pub mod layout;
pub mod reader;
pub mod records;

ghost use Rattle.std.specs.Prelude.{◌≡◌};
ghost use Rattle.tape.specs.Tape.{number};

use base::answer;
use event::Event;

// A record's length, and its first byte. specs/Tape.antt has the same numbers for the definitions.
pub const RECORD_SIZE: usize = 16;

pub const FIRST_BYTE: u8 = 0xE3;

// What the reader answers: the thread and the event of a record, or the number by which it is refused: 6, 7, 8 or 9. It is no Result: the
// theorems of `laws_round` and `laws_editions` speak of its two cases.
#[derive(Clone, Copy)]
pub enum Read {
    Record { thread: u8, event: Event },
    Refused(u8),
}

// The first record of a tape that is refused, by its number and its index; or 0 and the number of records. A number beside an index, since it
// crosses to C as it is (`naszeptan_two_to_three`).
#[repr(C)]
#[derive(Clone, Copy)]
pub struct Found {
    pub answer: u8,
    pub index: usize,
}

// The number of the reader's answer: 0 for a record. A number, as `Found` and C have it.
pub fn number(r: Read) -> u8
    ensures { result ≡ number r }
{
    match r {
        Read::Record { .. } => answer::DONE,
        Read::Refused(n) => n,
    }
}
