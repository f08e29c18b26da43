// The machine state in SRR1 (rule M15), and what a return makes of the one that is asked for (rule E0.11).
ghost use Rattle.std.specs.Prelude.{◌≡◌, ◌<◌};
ghost use Rattle.thread.specs.Turns.{ts, srr1_of, by_srr1, table, turned, is_bad};

use crate::{Msr, State};

// What is asked: bits 29 and 30 of TS, which are T and S; TM; PR.
#[derive(Clone, Copy)]
pub struct Asked {
    pub t: bool,
    pub s: bool,
    pub tm: bool,
    pub pr: bool,
}

// What comes of it: a Bad Thing; a failure, in T; or a state and TM. Three outcomes, as `table` in specs/Turns has them: a
// failure in T is no refusal, so it is no Result.
#[derive(Clone, Copy)]
pub enum Turn {
    Bad,
    Fails,
    To { state: State, tm: bool },
}

// The weights of SRR1's bits 29 and 30 (TS), 31 (TM) and 49 (PR), with bit 0 the highest.
const TRANSACTIONAL: u64 = 0x4_0000_0000;

const SUSPENDED: u64 = 0x2_0000_0000;

const FACILITY: u64 = 0x1_0000_0000;

const PROBLEM: u64 = 0x4000;

// The state as two bits, SRR1's own. CR0's field is `power::common::ts_field`: two tables of the architecture.
fn ts(s: State) -> u64
    ensures value { result ≡ ts s }
    ensures upper_bound { result < 4 }
{
    match s {
        State::N => 0b00,
        State::T => 0b10,
        State::S => 0b01,
    }
}

// What SRR1 asks for. No `From`: TEXASR is a u64 too, and the name says which register.
#[tactic(auto, unfolding(crate::specs::Turns::by_srr1))]
pub fn by_srr1(x: u64) -> Asked
    ensures { result ≡ by_srr1 x }
{
    Asked {
        t: x / TRANSACTIONAL % 2 == 1,
        s: x / SUSPENDED % 2 == 1,
        tm: x / FACILITY % 2 == 1,
        pr: x / PROBLEM % 2 == 1,
    }
}

impl Msr {
    // What an interrupt saves in SRR1.
    pub fn srr1(self) -> u64
        ensures { result ≡ srr1_of self }
    {
        ts(self.state) * SUSPENDED + base::bit(self.tm) * FACILITY + base::bit(self.pr) * PROBLEM
    }

    // What comes of what is asked. From N only N is allowed, from S to T only with TM on, and from S to N TM off that is asked for TM off
    // is done, and leaves S.
    #[tactic(auto, unfolding(crate::specs::Turns::table))]
    pub fn turned(self, asked: Asked) -> Turn
        ensures { result ≡ turned self asked }
    {
        let tm = asked.tm;
        match (self.state, asked.t, asked.s) {
            (State::N, false, false) => Turn::To {
                state: State::N,
                tm,
            },
            (State::S, false, false) if !self.tm && !tm => Turn::To {
                state: State::S,
                tm,
            },
            (State::S, false, true) => Turn::To {
                state: State::S,
                tm,
            },
            (State::S, true, false) if tm => Turn::To {
                state: State::T,
                tm,
            },
            (State::T, _, _) => Turn::Fails,
            _ => Turn::Bad,
        }
    }

    // Number 13 is for these.
    pub fn is_bad(self, asked: Asked) -> bool
        ensures { result ≡ is_bad (turned self asked) }
    {
        matches!(self.turned(asked), Turn::Bad)
    }
}
