// The writer of one record of a tape (rule T7).
#![tactic(auto)]

ghost use Rattle.std.specs.Prelude.{◌≡◌, ◌+◌, ◌≤◌, length};
ghost use Rattle.std.proofs.lemmas.List.Edits.{sets};
ghost use Rattle.base.specs.Answers.{judgement_number};
ghost use Rattle.tape.specs.Tape.{bytes, write_answer, write_answer_by, write_by, write};

use base::answer::{self, Refusal};
use event::{Event, Fields};
use tape::RECORD_SIZE;
use tape::layout::{Layout, Three};

// The record's bytes.
pub fn bytes(f: Fields) -> [u8; RECORD_SIZE]
    ensures { result ≡ bytes f }
{
    Three::bytes(f)
}

// A record's bytes at a place of the buffer, whatever their layout. A place and a slice: both lone records and tapes are written by it.
pub fn put(buf: &mut [u8], at: usize, src: &[u8])
    requires { at + length src.now ≤ length buf.old }
    ensures { buf.new ≡ sets buf.old at src.now }
{
    buf[at..at + src.len()].copy_from_slice(src);
}

// A lone record of an edition. Refused where that has none, then by 10, with the buffer unchanged; only the first 16 bytes are touched.
#[tactic(auto, unfolding(tape::specs::Tape::write_answer))]
pub fn write_as<L: Layout>(thread: u8, e: Event, buf: &mut [u8]) -> Result<(), Refusal>
    ensures value { judgement_number result ≡ write_answer_by L.no_record thread e buf.old }
    ensures buf_after { buf.new ≡ write_by L.no_record L.bytes thread e buf.old }
{
    L::has_record(thread, e)?;
    if buf.len() < RECORD_SIZE {
        return Err(Refusal::ShortBuffer);
    }
    put(buf, 0, &L::bytes(event::fields_of(thread, e)));
    Ok(())
}

// A lone record of this version's tape. Refused by 10 alone. The answer is a number, as C gets it (`naszeptan_write`).
#[tactic(auto, unfolding(tape::specs::Tape::write_answer, tape::specs::Tape::write))]
pub fn write(thread: u8, e: Event, buf: &mut [u8]) -> u8
    ensures value { result ≡ write_answer buf.old }
    ensures buf_after { buf.new ≡ write thread e buf.old }
{
    answer::judgement(write_as::<Three>(thread, e, buf))
}
