// Edition two of the tape, beside which `tape::layout` has the reader and `tape_writer` the writer (rules T9 and T10).
#![tactic(auto)]

ghost use Rattle.edition_two.specs.Two.{marked, fields_at, fixed_zero, bytes, no_record};

use base::answer::Refusal;
use event::{Event, Fields};
use tape::RECORD_SIZE;
use tape::layout::Layout;

// The last thread and the last kind that this edition has. specs/Two.antt has the same numbers for the definitions. A record's bytes are held
// against them: thread and kind are numbers on the tape.
pub const LAST_THREAD: u8 = 3;

pub const LAST_KIND: u8 = 17;

// Thread, kind, X, RA, RB, flags, SI and index lowest byte first, 0, 0, 0, 0.
pub struct Two;

// What edition two has of its own; all else is generic over `Layout`.
impl Layout for Two {
    ghost marked = { marked };

    ghost fields_at = { fields_at };

    ghost fixed_zero = { fixed_zero };

    ghost bytes = { bytes };

    ghost no_record = { no_record };

    // A kind of a later version of the rules is refused by 8, though edition three has it.
    fn marked(s: &[u8; RECORD_SIZE]) -> Result<(), Refusal> {
        if LAST_THREAD < s[0] {
            return Err(Refusal::BadFirstByte);
        }
        if LAST_KIND < s[1] {
            return Err(Refusal::NoKind);
        }
        Ok(())
    }

    #[tactic(auto, unfolding(crate::specs::Two::fields_at))]
    fn fields_at(s: &[u8; RECORD_SIZE]) -> Fields {
        Fields {
            kind: s[1],
            thread: s[0],
            x: s[2],
            ra: s[3],
            rb: s[4],
            flags: s[5],
            index: u32::from_le_bytes([s[8], s[9], s[10], s[11]]),
            si: u16::from_le_bytes([s[6], s[7]]),
        }
    }

    fn fixed_zero(s: &[u8; RECORD_SIZE]) -> bool {
        s[12..].iter().all(|b| *b == 0)
    }

    #[tactic(auto, unfolding(crate::specs::Two::bytes))]
    fn bytes(f: Fields) -> [u8; RECORD_SIZE] {
        let i = f.index.to_le_bytes();
        let si = f.si.to_le_bytes();
        [
            f.thread, f.kind, f.x, f.ra, f.rb, f.flags, si[0], si[1], i[0], i[1], i[2], i[3], 0, 0,
            0, 0,
        ]
    }

    fn has_record(thread: u8, e: Event) -> Result<(), Refusal> {
        if LAST_THREAD < thread {
            return Err(Refusal::NoThread);
        }
        if LAST_KIND < event::kind(e) {
            return Err(Refusal::NoKind);
        }
        Ok(())
    }
}
