// One thread: live registers and checkpoint, control registers, transaction; recording of a failure (rules M4 to M7, X1 to X6, F1 to F5).
// What a return from an interrupt may ask for: `turns`.
#![tactic(auto)]

pub mod turns;

ghost use Rattle.std.specs.Prelude.{◌≡◌, ◌<◌, ◌^◌};
ghost use Rattle.thread.specs.Texasr.{rot, tl, packed, cause_bits};
ghost use Rattle.thread.specs.Thread.{in_state, with_failure, take_checkpoint, restore, failed, noted, recording, handling, is_live, felled};

use base::{CR_FIELDS, GPRS};
use transaction::{Cause, Touch, Transaction, Write};

// 32 general registers, and CR fields 1 to 7: cr[0] is field 1. CR0 stands apart, since no checkpoint holds it.
#[repr(C)]
#[derive(Clone, Copy, PartialEq, Eq)]
pub struct Registers {
    pub gpr: [u64; GPRS],
    pub cr: [u8; CR_FIELDS],
}

// Non-transactional, Transactional, Suspended.
#[derive(Clone, Copy, PartialEq, Eq)]
pub enum State {
    N,
    T,
    S,
}

// The machine state, which an interrupt changes: PR, TM, the transaction's state, and TDOOMED.
#[derive(Clone, Copy, PartialEq, Eq)]
pub struct Msr {
    pub pr: bool,
    pub tm: bool,
    pub state: State,
    pub doomed: bool,
}

// The failure registers.
#[derive(Clone, Copy, PartialEq, Eq)]
pub struct Failure {
    pub tfhar: u64,
    pub tfiar: u64,
    pub texasr: u64,
}

// What an interrupt saved: the next address in SRR0, TS, TM and PR in SRR1.
#[derive(Clone, Copy, PartialEq, Eq)]
pub struct Saved {
    pub srr0: u64,
    pub srr1: u64,
}

// The next address, the machine state, the failure registers, and what an interrupt saved. C has `crossing::RawControl`.
#[derive(Clone, Copy, PartialEq, Eq)]
pub struct Control {
    pub nia: u64,
    pub msr: Msr,
    pub failure: Failure,
    pub saved: Saved,
}

// Registers, checkpoint, control registers and transaction. C has `crossing::RawThread`.
#[derive(Clone, Copy, PartialEq, Eq)]
pub struct Thread {
    pub live: Registers,
    pub cr0: u8,
    pub checkpoint: Registers,
    pub control: Control,
    pub transaction: Transaction,
}

// What an event does, decided before anything changes: its answer, its own thread afterwards, what it touches and what it writes. The answer is
// a number, as the definitions in step_rules and power_rules and the theorems over them have it.
#[derive(Clone, Copy)]
pub struct Effect {
    pub answer: u8,
    pub thread: Thread,
    pub touch: Touch,
    pub write: Write,
}

// The weights of TEXASR's bits 32 (suspended), 35 (PR), 36 (FS), 37 (exact) and 38 (ROT), with bit 0 the highest, and of what lies above the level.
const SUSPENDED: u64 = 0x8000_0000;

const PROBLEM: u64 = 0x1000_0000;

const SUMMARY: u64 = 0x0800_0000;

const EXACT: u64 = 0x0400_0000;

const ROT: u64 = 0x0200_0000;

const LEVEL: u64 = 0x1000;

const UPPER: u64 = 0x1_0000_0000;

// What CR0 tells of a failure that is handled.
const FAILED: u8 = 0b1010;

// TEXASR's ROT bit and its level, with the bounds that `packed` asks for.
pub fn rot(x: u64) -> u64
    ensures value { result ≡ rot x }
    ensures upper_bound { result < 2 }
{
    x / ROT % 2
}

pub fn tl(x: u64) -> u64
    ensures value { result ≡ tl x }
    ensures upper_bound { result < 2 ^ 12 }
{
    x % LEVEL
}

// A failure's TEXASR: the cause in the upper half, FS = 1.
pub fn packed(cause: u64, suspended: u64, pr: u64, exact: u64, r: u64, level: u64) -> u64
    requires cause_bound { cause < 2 ^ 32 }
    requires flags_bound { (suspended < 2) × (pr < 2) × (exact < 2) × (r < 2) × (level < 2 ^ 12) }
    ensures { result ≡ packed cause suspended pr exact r level }
{
    cause * UPPER + suspended * SUSPENDED + pr * PROBLEM + SUMMARY + exact * EXACT + r * ROT + level
}

// A cause's 32 bits, for the upper half. The bits are the Power ISA's: a match, each by its case.
pub fn cause_bits(cause: Cause) -> u64
    ensures value { result ≡ cause_bits cause }
    ensures upper_bound { result < 2 ^ 32 }
{
    match cause {
        Cause::Disallowed => 0x0080_0000,
        Cause::Nesting => 0x0040_0000,
        Cause::Footprint => 0x0020_0000,
        Cause::OwnStore => 0x0010_0000,
        Cause::PlainConflict => 0x0008_0000,
        Cause::Conflict => 0x0004_0000,
        Cause::Translation => 0x0002_0000,
        Cause::Abort(code) => code as u64 * 0x100_0000 + 1,
    }
}

impl Control {
    // FS = 1.
    #[inline]
    pub fn failed(&self) -> bool
        ensures { result ≡ failed self.now }
    {
        self.failure.texasr / SUMMARY % 2 == 1
    }

    // Another state, with TDOOMED: doomed is a bit that `in_state` takes, and no choice of a step.
    #[inline]
    pub fn set_state(&mut self, state: State, doomed: bool)
        ensures { self.new ≡ in_state self.old state doomed }
    {
        self.msr.state = state;
        self.msr.doomed = doomed;
    }

    // A cause noted for an instruction's address.
    pub fn note(&mut self, cause: Cause, exact: bool, at: u64)
        ensures { self.new ≡ with_failure self.old (noted self.old cause exact at) }
    {
        let old = self.failure.texasr;
        let pr = base::bit(self.msr.pr);
        self.failure.tfiar = at - at % 4 + pr;
        self.failure.texasr = packed(
            cause_bits(cause),
            base::bit(self.msr.state == State::S),
            pr,
            base::bit(exact),
            rot(old),
            tl(old),
        );
    }
}

impl Thread {
    #[inline]
    pub fn take_checkpoint(&mut self)
        ensures { self.new ≡ take_checkpoint self.old }
    {
        self.checkpoint = self.live;
    }

    // The checkpoint put back: CR0 stands apart and stays. It and `take_checkpoint` move opposite ways: alike in shape alone.
    #[inline]
    pub fn restore(&mut self)
        ensures { self.new ≡ restore self.old }
    {
        self.live = self.checkpoint;
    }

    // A cause recorded for an instruction's address, only if FS = 0: a second failure leaves the first. exact is
    // TEXASR's bit 37, which `recording` takes: no choice of a step.
    #[tactic(auto, unfolding(crate::specs::Thread::recording))]
    pub fn record(&mut self, cause: Cause, exact: bool, at: u64)
        ensures { self.new ≡ recording self.old cause exact at }
    {
        if !self.control.failed() {
            self.control.note(cause, exact, at);
            self.control.msr.doomed = true;
            self.transaction.discard();
        }
    }

    // A failure handled: the checkpoint put back, and on at TFHAR in N.
    #[tactic(auto, unfolding(crate::specs::Thread::handling))]
    pub fn handle(&mut self)
        ensures { self.new ≡ handling self.old }
    {
        self.restore();
        self.control.nia = self.control.failure.tfhar;
        self.control.set_state(State::N, false);
        self.cr0 = FAILED;
    }

    // The transaction is live: in T, and in S until it is doomed. A case for each state, as `is_live` is defined.
    #[inline]
    pub fn is_live(&self) -> bool
        ensures { result ≡ is_live self.now.control.msr.state self.now.control.msr.doomed }
    {
        match self.control.msr.state {
            State::N => false,
            State::T => true,
            State::S => !self.control.msr.doomed,
        }
    }

    // Another thread's event fails the transaction: in T that is handled too, in S it waits for tresume.
    #[tactic(auto, unfolding(crate::specs::Thread::felled))]
    pub fn fell(&mut self, cause: Cause)
        ensures { self.new ≡ felled self.old.control.msr.state self.old cause }
    {
        let state = self.control.msr.state;
        if state != State::N {
            self.record(cause, false, self.control.nia);
        }
        if state == State::T {
            self.handle();
        }
    }
}
