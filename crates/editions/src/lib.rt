// Tapes of edition two and edition three (rules T8 to T13): the reader, the writer and the converter of an edition that the caller names.
#![tactic(auto)]

pub mod converter;

ghost use Rattle.std.specs.Prelude.{◌≡◌};
ghost use Rattle.base.specs.Answers.{judgement_number};
ghost use Rattle.editions.specs.Editions.{other, read, bytes, no_record, write_answer, write};

use base::answer::{self, Refusal};
use edition_two::Two;
use event::{Event, Fields};
use tape::layout::{self, Layout, Three};
use tape::{RECORD_SIZE, Read};

// The name of an edition at run time; `Two` and `Three` are their layouts.
#[derive(Clone, Copy)]
pub enum Edition {
    Two,
    Three,
}

impl Edition {
    pub fn other(self) -> Edition
        ensures { result ≡ other self }
    {
        match self {
            Edition::Two => Edition::Three,
            Edition::Three => Edition::Two,
        }
    }

    #[tactic(auto, unfolding(crate::specs::Editions::bytes))]
    pub fn bytes(self, f: Fields) -> [u8; RECORD_SIZE]
        ensures { result ≡ bytes self f }
    {
        match self {
            Edition::Two => Two::bytes(f),
            Edition::Three => Three::bytes(f),
        }
    }

    // Whether the edition has a record for an event: edition two refuses by 3 and 8.
    #[tactic(auto, unfolding(crate::specs::Editions::no_record))]
    pub fn has_record(self, thread: u8, e: Event) -> Result<(), Refusal>
        ensures { judgement_number result ≡ no_record self thread e }
    {
        match self {
            Edition::Two => Two::has_record(thread, e),
            Edition::Three => Three::has_record(thread, e),
        }
    }
}

// A lone record. Refused by 6, 7, 8, 9 in this order.
#[tactic(auto, unfolding(crate::specs::Editions::read, edition_two::specs::Two::read, tape::specs::Tape::read))]
pub fn read(d: Edition, s: &[u8]) -> Read
    ensures { result ≡ read d s.now }
{
    match d {
        Edition::Two => layout::read::<Two>(s),
        Edition::Three => layout::read::<Three>(s),
    }
}

// A lone record. Edition two refuses by 3 and 8, then both by 10, with the buffer unchanged; only the first 16 bytes are touched. The answer
// is a number, as C gets it (`naszeptan_write_two`).
#[tactic(auto, unfolding(crate::specs::Editions::write_answer, crate::specs::Editions::write, crate::specs::Editions::no_record, crate::specs::Editions::bytes))]
pub fn write(d: Edition, thread: u8, e: Event, buf: &mut [u8]) -> u8
    ensures value { result ≡ write_answer d thread e buf.old }
    ensures buf_after { buf.new ≡ write d thread e buf.old }
{
    answer::judgement(match d {
        Edition::Two => tape_writer::write_as::<Two>(thread, e, buf),
        Edition::Three => tape_writer::write_as::<Three>(thread, e, buf),
    })
}
