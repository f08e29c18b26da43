// What a host gets for what it hands in, by definition (rules H1 to H10): `specs`; and what crosses as it stands. The code is in host_parts and host.
#![tactic(auto)]

ghost use Rattle.std.specs.Prelude.{◌≡◌};
ghost use Rattle.host_rules.specs.Host.{record_of};
ghost use Rattle.host_rules.specs.Sessions.{session_of, raw_session};

use base::answer;
use crossing::RawMachine;
use event::Fields;
use session_rules::Session;
use tape::Read;

// The five types that cross to C: an answer is a number beside what it goes with, and held bytes are an array with their number.

// A step's answer, the threads that failed in it (rule H8: bit v for thread v), and the machine after it.
#[repr(C)]
#[derive(Clone, Copy)]
pub struct RawDone {
    pub answer: u8,
    pub failed: u8,
    pub machine: RawMachine,
}

// The answer that ended a run, how many records were done, the index of the record that the answer is about, and the machine after exactly
// the records done.
#[repr(C)]
#[derive(Clone, Copy)]
pub struct RawEnded {
    pub answer: u8,
    pub count: usize,
    pub index: usize,
    pub machine: RawMachine,
}

// A reader's answer: 0 and the event, or a number and zeros.
#[repr(C)]
#[derive(Clone, Copy)]
pub struct RawRecord {
    pub answer: u8,
    pub event: Fields,
}

// A session between two pieces (rule Q1), its machine as plain numbers.
#[repr(C)]
#[derive(Clone, Copy)]
pub struct RawSession {
    pub machine: RawMachine,
    pub count: usize,
    pub held: usize,
    pub answer: u8,
    pub bytes: [u8; 15],
}

// What feeding a piece gives: an answer, how many records it finished, and the session behind it.
#[repr(C)]
#[derive(Clone, Copy)]
pub struct RawFed {
    pub answer: u8,
    pub finished: usize,
    pub session: RawSession,
}

// Fields that are no event.
const NO_EVENT: Fields = Fields {
    kind: 0,
    thread: 0,
    x: 0,
    ra: 0,
    rb: 0,
    flags: 0,
    index: 0,
    si: 0,
};

// A reader's answer: a record's fields, or a number.
impl From<Read> for RawRecord {
    ghost from_gives = { λ found r. r ≡ record_of found };

    fn from(found: Read) -> RawRecord {
        match found {
            Read::Record { thread, event } => RawRecord {
                answer: answer::DONE,
                event: event::fields_of(thread, event),
            },
            Read::Refused(answer) => RawRecord {
                answer,
                event: NO_EVENT,
            },
        }
    }
}

// A session crosses as its machine does, a field a line, here and back. Bits that are no machine's are refused by the caller.
impl From<&RawSession> for Session {
    ghost from_gives = { λ s r. r ≡ session_of s.now };

    fn from(s: &RawSession) -> Session {
        Session {
            machine: s.machine.machine(),
            count: s.count,
            held: s.held,
            answer: s.answer,
            bytes: s.bytes,
        }
    }
}

impl From<&Session> for RawSession {
    ghost from_gives = { λ s r. r ≡ raw_session s.now };

    fn from(s: &Session) -> RawSession {
        RawSession {
            machine: RawMachine::from(&s.machine),
            count: s.count,
            held: s.held,
            answer: s.answer,
            bytes: s.bytes,
        }
    }
}
