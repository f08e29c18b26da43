// A session as a value: which values are sessions, bytes held and joined, why it is not fed, the last answer (rules Q1, Q2, Q4, Q5, Q7 and Q8).
ghost use Rattle.std.specs.Prelude.{◌≡◌, ◌++◌, ◌+◌, ◌≤◌, length, take};
ghost use Rattle.base.specs.Answers.{judgement_number};
ghost use Rattle.base.specs.Below.{all_below};
ghost use Rattle.machine.specs.Valid.{first_of};
ghost use Rattle.tape.specs.Tape.{record_size};
ghost use Rattle.session_rules.specs.Value.{most_held, laid, stops_at, place_right, right, number, last_answer};

use base::answer::{self, Refusal};
use session_rules::{HELD, Session};
use tape::RECORD_SIZE;

// A session stops at these answers. A host keeps it as a number (rule Q1), so it is any byte.
fn stops_at(answer: u8) -> bool
    ensures { result ≡ stops_at answer }
{
    matches!(
        answer,
        answer::NO_THREAD
            | answer::OPERAND
            | answer::HOST_IN_T
            | answer::BAD_FIRST_BYTE
            | answer::NO_KIND
            | answer::FIELD
            | answer::FACILITY_OFF
            | answer::PRIVILEGED
            | answer::BAD_THING
    )
}

// The places behind the held bytes are 0: place by place, as `place_right` is defined.
fn places_right(s: &Session) -> bool
    ensures { result ≡ all_below (place_right s.now) most_held }
{
    (0..HELD).all(|i| i < s.held || s.bytes[i] == 0)
}

// The value is a session, whatever its machine (rule Q2).
#[tactic(auto, unfolding(session_rules::specs::Value::right))]
fn right(s: &Session) -> bool
    ensures { result ≡ right s.now }
{
    s.held <= HELD
        && places_right(s)
        && (s.answer == answer::DONE || (stops_at(s.answer) && s.held == 0))
}

// The tests 1 and 2 of a session.
#[tactic(auto, unfolding(session_rules::specs::Value::number))]
pub fn judged(s: &Session, len: usize) -> Result<(), Refusal>
    ensures { judgement_number result ≡ number s.now len }
{
    validity::judged(&s.machine, len)?;
    if right(s) {
        Ok(())
    } else {
        Err(Refusal::NoMachine)
    }
}

// Why a piece is not fed: the number that refuses the session, else the answer that stopped it (rules Q4 and Q5). A number, since
// `s.answer` is any byte.
pub fn stopped(s: &Session, len: usize) -> u8
    ensures { result ≡ first_of (number s.now len) s.now.answer }
{
    match judged(s, len) {
        Ok(()) => s.answer,
        Err(refusal) => refusal.number(),
    }
}

// Bytes as they are held: up to fifteen in fixed memory, since there is no heap.
pub fn laid(left: &[u8]) -> [u8; HELD]
    requires { length left.now ≤ most_held }
    ensures { result ≡ laid left.now }
{
    let mut bytes = [0; HELD];
    bytes[..left.len()].copy_from_slice(left);
    bytes
}

// The held bytes with more behind them, and zeros behind these. A `Session` has its bytes with their number.
pub fn joined(bytes: [u8; HELD], held: usize, more: &[u8]) -> [u8; RECORD_SIZE]
    requires more_bound { held + length more.now ≤ record_size }
    requires held_le_most_held { held ≤ most_held }
    ensures result_value { take (held + length more.now) result ≡ take held bytes ++ more.now }
    ensures bytes_len { length (take held bytes) ≡ held }
{
    let mut record = [0; RECORD_SIZE];
    record[..held].copy_from_slice(&bytes[..held]);
    record[held..held + more.len()].copy_from_slice(more);
    record
}

// The answer at the close: 6 where bytes are left. A number, as that of `stopped`.
pub fn last_answer(s: &Session) -> u8
    ensures { result ≡ last_answer s.now }
{
    if s.answer == answer::DONE && s.held != 0 {
        answer::TAPE_LENGTH
    } else {
        s.answer
    }
}
