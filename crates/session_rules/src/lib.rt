// A tape that comes in pieces, by definition (rules Q1 to Q9): `specs`. The code is in session.
#![tactic(auto)]

use machine::Machine;

// The most bytes that are held. specs/Value.antt has the same number for the definitions.
pub const HELD: usize = 15;

// A session, kept by the caller between the pieces: the machine, the count of records done (modulo 2^64), how many bytes of an unfinished record are
// held, the answer (0 until a record stopped it), and the held bytes, with zeros behind them. The answer is a number, as `feed`, `close` and the
// theorems over them have it. The held bytes are an array with their number: no heap, and C keeps it so (`host_rules::RawSession`).
#[derive(Clone, Copy)]
pub struct Session {
    pub machine: Machine,
    pub count: usize,
    pub held: usize,
    pub answer: u8,
    pub bytes: [u8; HELD],
}

// What feeding a piece gives: an answer, how many records it finished, the one that stopped it among them, and the session behind it. The answer
// is a number, as in `Session`.
#[derive(Clone, Copy)]
pub struct Fed {
    pub answer: u8,
    pub finished: usize,
    pub session: Session,
}
