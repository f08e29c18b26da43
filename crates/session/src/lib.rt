// A session: a tape that comes in pieces, cut at any byte (rules Q1 to Q8).
#![tactic(auto)]

pub mod pieces;
pub mod value;

ghost use Rattle.std.specs.Prelude.{◌≡◌};
ghost use Rattle.std.proofs.lemmas.List.Edits.{sets};
ghost use Rattle.session_rules.specs.Session.{opened, feed, close};

use base::answer;
use machine::Machine;
use run_rules::Ended;
use session_rules::{Fed, HELD, Session};

// A session on a machine.
#[tactic(auto, unfolding(session_rules::specs::Session::opened))]
pub fn opened(m: Machine, len: usize) -> Session
    ensures { result ≡ opened m len }
{
    Session {
        machine: m,
        count: 0,
        held: 0,
        answer: answer::judgement(validity::judged(&m, len)),
        bytes: [0; HELD],
    }
}

// Any session, memory and bytes may be handed in. The answer of the j-th record that the piece finishes goes to place j of answers, the stopping
// record's too; no other place changes. The answer is a number, which hosts keep (rule Q1); session, memory, piece and answers stand apart, as C
// lends them.
#[tactic(auto, using(crate::proofs::Feeds::judged))]
pub fn feed(s: Session, mem: &mut [u64], piece: &[u8], answers: &mut [u8]) -> Fed
    ensures value { result ≡ (feed s mem.old piece.now).fed }
    ensures mem_after { mem.new ≡ (feed s mem.old piece.now).memory }
    ensures answers_after { answers.new ≡ sets answers.old 0 (feed s mem.old piece.now).answers }
{
    let answer = value::stopped(&s, mem.len());
    if answer != answer::DONE {
        return Fed {
            answer,
            finished: 0,
            session: s,
        };
    }
    if s.held == 0 {
        return pieces::did(s.count, s.machine, mem, piece, answers);
    }
    pieces::feed_held(&s, mem, piece, answers)
}

// What a run would give: the answer that stopped the session, 6 where bytes are left, else 0.
#[tactic(auto, unfolding(session_rules::specs::Session::close))]
pub fn close(s: Session, len: usize) -> Ended
    ensures { result ≡ close s len }
{
    let (answer, count) = match value::judged(&s, len) {
        Ok(()) => (value::last_answer(&s), s.count),
        Err(refusal) => (refusal.number(), 0),
    };
    Ended {
        answer,
        count,
        index: count,
        machine: s.machine,
    }
}
