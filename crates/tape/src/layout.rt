// An edition of the tape: how the fields of an event stand in the bytes of a record. One impl an edition; the reader (`read`) and the writer
// (`tape_writer::write_as`) are for all. `Three` is this version's; edition two's is `edition_two::Two`.
ghost use Rattle.std.specs.Prelude.{◌≡◌, ℕ, Bool, List};
ghost use Rattle.event.specs.declared.Event.{Event};
ghost use Rattle.event.specs.declared.Fields.{Fields};
ghost use Rattle.base.specs.Answers as answer;
ghost use Rattle.tape.specs.Tape.{marked, fields_at, fixed_zero, bytes, read_by};
ghost use Rattle.base.specs.Answers.{judgement_number};

use crate::{FIRST_BYTE, RECORD_SIZE, Read, reader};
use base::answer::{self, Refusal};
use event::{Event, Fields};

pub trait Layout {
    ghost marked: { List ℕ → ℕ };

    ghost fields_at: { List ℕ → Fields };

    ghost fixed_zero: { List ℕ → Bool };

    ghost bytes: { Fields → List ℕ };

    ghost no_record: { ℕ → Event → ℕ };

    // What is tested before the kind's row is: what marks a record of the edition.
    fn marked(s: &[u8; RECORD_SIZE]) -> Result<(), Refusal>
        ensures { judgement_number result ≡ marked s.now };

    // The fields at their places.
    fn fields_at(s: &[u8; RECORD_SIZE]) -> Fields
        ensures { result ≡ fields_at s.now };

    // The fixed 0 bytes are 0.
    fn fixed_zero(s: &[u8; RECORD_SIZE]) -> bool
        ensures { result ≡ fixed_zero s.now };

    // The record's bytes.
    fn bytes(f: Fields) -> [u8; RECORD_SIZE]
        ensures { result ≡ bytes f };

    // Whether the edition has a record for an event.
    fn has_record(thread: u8, e: Event) -> Result<(), Refusal>
        ensures { judgement_number result ≡ no_record thread e };
}

// A lone record. Refused by 6, 7, 8, 9 in this order, by its number, as `Read` has it.
pub fn read<L: Layout>(s: &[u8]) -> Read
    ensures { result ≡ read_by L.marked L.fields_at L.fixed_zero s.now }
{
    let Ok(record) = <&[u8; RECORD_SIZE]>::try_from(s) else {
        return Read::Refused(answer::TAPE_LENGTH);
    };
    if let Err(refusal) = L::marked(record) {
        return Read::Refused(refusal.number());
    }
    reader::of_kind(L::fields_at(record), L::fixed_zero(record))
}

// Edition three: 0xE3, kind, thread, X, RA, RB, flags, 0, index and SI highest byte first, 0, 0.
pub struct Three;

impl Layout for Three {
    ghost marked = { marked };

    ghost fields_at = { fields_at };

    ghost fixed_zero = { fixed_zero };

    ghost bytes = { bytes };

    ghost no_record = { λ w e. answer.done };

    fn marked(s: &[u8; RECORD_SIZE]) -> Result<(), Refusal> {
        if s[0] != FIRST_BYTE {
            return Err(Refusal::BadFirstByte);
        }
        Ok(())
    }

    #[tactic(auto, unfolding(crate::specs::Tape::fields_at))]
    fn fields_at(s: &[u8; RECORD_SIZE]) -> Fields {
        Fields {
            kind: s[1],
            thread: s[2],
            x: s[3],
            ra: s[4],
            rb: s[5],
            flags: s[6],
            index: u32::from_be_bytes([s[8], s[9], s[10], s[11]]),
            si: u16::from_be_bytes([s[12], s[13]]),
        }
    }

    // Joined by &, as in `reader`.
    fn fixed_zero(s: &[u8; RECORD_SIZE]) -> bool {
        (s[7] == 0) & (s[14] == 0) & (s[15] == 0)
    }

    #[tactic(auto, unfolding(crate::specs::Tape::bytes))]
    fn bytes(f: Fields) -> [u8; RECORD_SIZE] {
        let i = f.index.to_be_bytes();
        let si = f.si.to_be_bytes();
        [
            FIRST_BYTE, f.kind, f.thread, f.x, f.ra, f.rb, f.flags, 0, i[0], i[1], i[2], i[3],
            si[0], si[1], 0, 0,
        ]
    }

    fn has_record(_thread: u8, _e: Event) -> Result<(), Refusal> {
        Ok(())
    }
}
