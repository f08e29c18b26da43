// A tape of one edition as one of the other, in a second buffer. Two passes: the second writes, where the first has found nothing bad.
ghost use Rattle.std.specs.Prelude.{◌≡◌, ◌+◌, ◌/◌, ◌≤◌, length};
ghost use Rattle.std.proofs.lemmas.List.Edits.{sets};
ghost use Rattle.tape.specs.Tape.{record_size};
ghost use Rattle.tape.specs.FirstBad.{first_bad};
ghost use Rattle.editions.specs.Editions.{number, turned, all_turned, convert_answer, convert};

use crate::Edition;
use base::answer;
use tape::{Found, RECORD_SIZE, Read, records};

// The number of a record that cannot be had in the other edition, or 0. A number, as `Found` has one and `number` is defined.
#[tactic(auto, unfolding(crate::specs::Editions::number))]
fn number(d: Edition, s: &[u8]) -> u8
    ensures { result ≡ number d s.now }
{
    match crate::read(d, s) {
        Read::Record { thread, event } => answer::judgement(d.other().has_record(thread, event)),
        Read::Refused(n) => n,
    }
}

// A record in the other edition, at a place of the buffer, which is lent: one slice of it (`tape_writer::put`).
#[tactic(auto, unfolding(crate::specs::Editions::turned))]
fn turn(d: Edition, s: &[u8], buf: &mut [u8], at: usize)
    requires { at + record_size ≤ length buf.old }
    ensures { buf.new ≡ sets buf.old at (turned d s.now) }
{
    let Read::Record { thread, event } = crate::read(d, s) else {
        return;
    };
    tape_writer::put(buf, at, &d.other().bytes(event::fields_of(thread, event)));
}

// All records of a tape that has no bad one.
#[tactic(auto, using(crate::proofs::Laws::one_more, crate::proofs::Laws::none_turned))]
fn turn_all(d: Edition, tape: &[u8], buf: &mut [u8])
    requires tape_in_bounds { length tape.now ≤ length buf.old }
    requires none_bad { (first_bad (number d) tape.now 0 (length tape.now / record_size)).answer ≡ 0 }
    ensures { buf.new ≡ sets buf.old 0 (all_turned d tape.now (length tape.now / record_size)) }
{
    let (records, _) = tape.as_chunks::<RECORD_SIZE>();
    for (k, record) in records.iter().enumerate() {
        turn(d, record, buf, k * RECORD_SIZE);
    }
}

// A whole tape. Refused by 6, then by 10, then by its first bad record, with the buffer unchanged. The answer is a number, as `Found` has it.
#[tactic(auto, unfolding(crate::specs::Editions::convert_answer, crate::specs::Editions::convert))]
pub fn convert(d: Edition, tape: &[u8], buf: &mut [u8]) -> Found
    ensures value { result ≡ convert_answer d tape.now buf.old }
    ensures buf_after { buf.new ≡ convert d tape.now buf.old }
{
    if tape.len() % RECORD_SIZE != 0 {
        return Found {
            answer: answer::TAPE_LENGTH,
            index: tape.len() / RECORD_SIZE,
        };
    }
    if buf.len() < tape.len() {
        return Found {
            answer: answer::SHORT_BUFFER,
            index: 0,
        };
    }
    let found = records::first_bad(tape, |record| number(d, record));
    if found.answer == answer::DONE {
        turn_all(d, tape, buf);
    }
    found
}
