// A piece of a tape done: its whole records, behind the bytes that a session holds (rules Q6 and Q7).
ghost use Rattle.std.specs.Prelude.{◌≡◌, ◌+◌, ◌/◌, ◌≤◌, true, [], length, if◌then◌else◌, ◌==◌};
ghost use Rattle.machine.specs.Valid.{valid};
ghost use Rattle.tape.specs.Tape.{record_size};
ghost use Rattle.run_rules.specs.Run.{reads, play};
ghost use Rattle.session_rules.specs.Value.{most_held, session, holds};
ghost use Rattle.session_rules.specs.Feeding.{wrapped, did, feed_on};
ghost use Rattle.session.specs.Inner.{left};

use crate::value::{joined, laid};
use base::answer;
use counting::answered;
use machine::Machine;
use run_rules::Ended;
use session_rules::{Fed, HELD, Session};
use tape::RECORD_SIZE;

// The session behind a run: it holds the bytes that are left, or it has stopped and holds nothing. By the number in `Ended`; count
// is of records, and no place in bytes.
fn behind(count: usize, e: Ended, left: &[u8]) -> Session
    requires { length left.now ≤ most_held }
    ensures { result ≡ session e.answer e.machine (wrapped (count + e.count)) (if e.answer == 0 then left.now else []) }
{
    let (held, bytes) = if e.answer == answer::DONE {
        (left.len(), laid(left))
    } else {
        (0, [0; HELD])
    };
    Session {
        machine: e.machine,
        count: count.wrapping_add(e.count),
        held,
        answer: e.answer,
        bytes,
    }
}

// The whole records of some bytes behind count others, each read as it is reached. The machine is asked to be valid over the memory, here and below,
// which `Fed` and C have apart.
pub fn did(count: usize, m: Machine, mem: &mut [u64], bytes: &[u8], answers: &mut [u8]) -> Fed
    requires { valid m (length mem.old) ≡ true }
    ensures { record { fed = result; memory = mem.new; buffer = answers.new }
        ≡ left (did count bytes.now (play (reads bytes.now 0 (length bytes.now / record_size)) 0 m mem.old)) answers.old 0 }
{
    let e = run::play(m, mem, bytes, answers);
    let n = bytes.len() / RECORD_SIZE;
    Fed {
        answer: e.answer,
        finished: answered(e.count, n),
        session: behind(count, e, &bytes[n * RECORD_SIZE..]),
    }
}

// The same with the answers from place 1 on, for the records behind a first one.
fn did_next(count: usize, m: Machine, mem: &mut [u64], bytes: &[u8], answers: &mut [u8]) -> Fed
    requires { valid m (length mem.old) ≡ true }
    ensures { record { fed = result; memory = mem.new; buffer = answers.new }
        ≡ left (did count bytes.now (play (reads bytes.now 0 (length bytes.now / record_size)) 0 m mem.old)) answers.old 1 }
{
    if answers.is_empty() {
        did(count, m, mem, bytes, answers)
    } else {
        did(count, m, mem, bytes, &mut answers[1..])
    }
}

// A piece that at most fills up the record of the held bytes. That these are as many as the session says is told too.
#[tactic(auto, using(crate::proofs::Feeds::laid_fed))]
fn fill(s: &Session, mem: &mut [u64], piece: &[u8], answers: &mut [u8]) -> Fed
    requires mem_value { valid s.now.machine (length mem.old) ≡ true }
    requires held_bounds { (s.now.held ≤ most_held) × (s.now.held + length piece.now ≤ record_size) }
    ensures value { record { fed = result; memory = mem.new; buffer = answers.new } ≡ left (feed_on s.now mem.old piece.now) answers.old 0 }
    ensures s_len { length (holds s.now) ≡ s.now.held }
{
    let record = joined(s.bytes, s.held, piece);
    did(
        s.count,
        s.machine,
        mem,
        &record[..s.held + piece.len()],
        answers,
    )
}

// A piece behind held bytes: their record is filled up and done, and then what is left of the piece.
pub fn feed_held(s: &Session, mem: &mut [u64], piece: &[u8], answers: &mut [u8]) -> Fed
    requires mem_value { valid s.now.machine (length mem.old) ≡ true }
    requires held_bounds { (1 ≤ s.now.held) × (s.now.held ≤ most_held) }
    ensures { record { fed = result; memory = mem.new; buffer = answers.new } ≡ left (feed_on s.now mem.old piece.now) answers.old 0 }
{
    let need = RECORD_SIZE - s.held;
    if piece.len() <= need {
        return fill(s, mem, piece, answers);
    }
    let first = fill(s, mem, &piece[..need], answers);
    if first.answer != answer::DONE {
        return first;
    }
    let next = first.session;
    let then = did_next(next.count, next.machine, mem, &piece[need..], answers);
    Fed {
        finished: 1 + then.finished,
        ..then
    }
}
