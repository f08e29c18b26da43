// A tape in pieces: what a host calls (rule H10).
ghost use Rattle.std.specs.Prelude.{◌≡◌};
ghost use Rattle.std.proofs.lemmas.List.Edits.{sets};
ghost use Rattle.host_rules.specs.Sessions.{open_raw, feed, close};

use crate::entries;
use crossing::RawMachine;
use host_rules::{RawEnded, RawFed, RawSession};
use session_rules::{HELD, Session};

// A session on a machine; where it is refused its answer is the number.
#[tactic(auto, unfolding(host_rules::specs::Sessions::open_raw))]
pub fn naszeptan_open(m: RawMachine, len: usize) -> RawSession
    ensures { result ≡ open_raw m len }
{
    if !m.is_right() {
        return RawSession {
            machine: m,
            count: 0,
            held: 0,
            answer: entries::naszeptan_valid(m, len),
            bytes: [0; HELD],
        };
    }
    RawSession::from(&session::opened(m.machine(), len))
}

// A piece of the tape. The answers of the records that it finishes go to the buffer, as far as it has places.
#[tactic(auto, unfolding(host_rules::specs::Sessions::feed))]
pub fn naszeptan_feed(s: RawSession, mem: &mut [u64], piece: &[u8], answers: &mut [u8]) -> RawFed
    ensures value { result ≡ (feed s mem.old piece.now).fed }
    ensures mem_after { mem.new ≡ (feed s mem.old piece.now).memory }
    ensures answers_after { answers.new ≡ sets answers.old 0 (feed s mem.old piece.now).answers }
{
    if !s.machine.is_right() {
        return RawFed {
            answer: entries::naszeptan_valid(s.machine, mem.len()),
            finished: 0,
            session: s,
        };
    }
    let fed = session::feed(Session::from(&s), mem, piece, answers);
    RawFed {
        answer: fed.answer,
        finished: fed.finished,
        session: RawSession::from(&fed.session),
    }
}

// The end of the tape.
#[tactic(auto, unfolding(host_rules::specs::Sessions::close))]
pub fn naszeptan_close(s: RawSession, len: usize) -> RawEnded
    ensures { result ≡ close s len }
{
    if !s.machine.is_right() {
        return RawEnded {
            answer: entries::naszeptan_valid(s.machine, len),
            count: 0,
            index: 0,
            machine: s.machine,
        };
    }
    let ended = session::close(Session::from(&s), len);
    RawEnded {
        answer: ended.answer,
        count: ended.count,
        index: ended.index,
        machine: RawMachine::from(&ended.machine),
    }
}
