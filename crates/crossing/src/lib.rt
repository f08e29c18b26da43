// A machine's crossing to and from plain numbers.
#![tactic(auto)]

ghost use Rattle.std.specs.Prelude.{◌≡◌};
ghost use Rattle.crossing.specs.Crossing.{state_of, control_right, right, control_of, raw_control, thread_of, raw_thread, machine_of, raw_machine};

use machine::Machine;
use thread::{Control, Failure, Msr, Registers, Saved, State, Thread};
use transaction::Transaction;

// The control registers with their flags as bytes: 0 or 1, and 0, 1, 2 for N, T, S. This type and the two below it are what crosses to C, beside
// `thread`'s and `machine`'s own: flags and states are numbers there, and the machine is an array with a count.
#[repr(C)]
#[derive(Clone, Copy)]
pub struct RawControl {
    pub nia: u64,
    pub pr: u8,
    pub tm: u8,
    pub state: u8,
    pub doomed: u8,
    pub tfhar: u64,
    pub tfiar: u64,
    pub texasr: u64,
    pub srr0: u64,
    pub srr1: u64,
}

#[repr(C)]
#[derive(Clone, Copy)]
pub struct RawThread {
    pub live: Registers,
    pub cr0: u8,
    pub checkpoint: Registers,
    pub control: RawControl,
    pub transaction: Transaction,
}

#[repr(C)]
#[derive(Clone, Copy)]
pub struct RawMachine {
    pub count: usize,
    pub threads: [RawThread; 4],
}

// Bits that are no machine's: a flag above 1, or a state above 2.
#[derive(Clone, Copy, Debug, PartialEq, Eq)]
pub struct NotAMachine;

impl RawControl {
    // The flags are single bits and the state is one of three.
    #[tactic(auto, unfolding(crate::specs::Crossing::control_right))]
    fn is_right(&self) -> bool
        ensures { result ≡ control_right self.now }
    {
        self.pr <= 1 && self.tm <= 1 && self.state <= 2 && self.doomed <= 1
    }

    // C's type to the code's, for any bits, as `control_of` is defined: what shuts bits out is `is_right`.
    #[tactic(auto, unfolding(crate::specs::Crossing::control_of))]
    fn control(&self) -> Control
        ensures { result ≡ control_of self.now }
    {
        Control {
            nia: self.nia,
            msr: Msr {
                pr: self.pr == 1,
                tm: self.tm == 1,
                state: state_of(self.state),
                doomed: self.doomed == 1,
            },
            failure: Failure {
                tfhar: self.tfhar,
                tfiar: self.tfiar,
                texasr: self.texasr,
            },
            saved: Saved {
                srr0: self.srr0,
                srr1: self.srr1,
            },
        }
    }
}

impl RawThread {
    // For any bits, as `control`.
    #[inline(always)]
    #[tactic(auto, unfolding(crate::specs::Crossing::thread_of))]
    fn thread(&self) -> Thread
        ensures { result ≡ thread_of self.now }
    {
        Thread {
            live: self.live,
            cr0: self.cr0,
            checkpoint: self.checkpoint,
            control: self.control.control(),
            transaction: self.transaction,
        }
    }
}

impl RawMachine {
    // The bits are those of a machine, valid or not. Records past the count are tested too: they must be zero. Four records, as `right` is defined.
    #[tactic(auto, unfolding(crate::specs::Crossing::right))]
    pub fn is_right(&self) -> bool
        ensures { result ≡ right self.now }
    {
        let [a, b, c, d] = &self.threads;
        a.control.is_right() && b.control.is_right() && c.control.is_right() && d.control.is_right()
    }

    // What is made of any bits. Those that are no machine's are refused by the caller. Four records, here and back, as `machine_of` is defined.
    // Always inlined: else all of a machine, 7 KB, is copied twice (docs/PERFORMANCE.md).
    #[inline(always)]
    #[tactic(auto, unfolding(crate::specs::Crossing::machine_of))]
    pub fn machine(&self) -> Machine
        ensures { result ≡ machine_of self.now }
    {
        let [a, b, c, d] = &self.threads;
        Machine {
            count: self.count,
            threads: [a.thread(), b.thread(), c.thread(), d.thread()],
        }
    }
}

// Where copying is most of a call, `is_right` and `machine` are called: a `Result` with a machine in it is copied again.
impl TryFrom<&RawMachine> for Machine {
    type Error = NotAMachine;

    ghost use Rattle.std.specs.Prelude.{if◌then◌else◌, Ok, Err};

    ghost try_from_gives = { λ m r. r ≡ (if right m.now then Ok (machine_of m.now) else Err (record {})) };

    fn try_from(m: &RawMachine) -> Result<Machine, NotAMachine> {
        if m.is_right() {
            Ok(m.machine())
        } else {
            Err(NotAMachine)
        }
    }
}

// One impl a type, a field a line.
impl From<&Control> for RawControl {
    ghost from_gives = { λ k r. r ≡ raw_control k.now };

    #[tactic(auto, unfolding(crate::specs::Crossing::raw_control))]
    fn from(k: &Control) -> RawControl {
        RawControl {
            nia: k.nia,
            pr: k.msr.pr as u8,
            tm: k.msr.tm as u8,
            state: k.msr.state as u8,
            doomed: k.msr.doomed as u8,
            tfhar: k.failure.tfhar,
            tfiar: k.failure.tfiar,
            texasr: k.failure.texasr,
            srr0: k.saved.srr0,
            srr1: k.saved.srr1,
        }
    }
}

impl From<&Thread> for RawThread {
    ghost from_gives = { λ t r. r ≡ raw_thread t.now };

    #[tactic(auto, unfolding(crate::specs::Crossing::raw_thread))]
    fn from(t: &Thread) -> RawThread {
        RawThread {
            live: t.live,
            cr0: t.cr0,
            checkpoint: t.checkpoint,
            control: RawControl::from(&t.control),
            transaction: t.transaction,
        }
    }
}

impl From<&Machine> for RawMachine {
    ghost from_gives = { λ m r. r ≡ raw_machine m.now };

    #[tactic(auto, unfolding(crate::specs::Crossing::raw_machine))]
    fn from(m: &Machine) -> RawMachine {
        let [a, b, c, d] = &m.threads;
        RawMachine {
            count: m.count,
            threads: [a.into(), b.into(), c.into(), d.into()],
        }
    }
}

// A byte above 2 is no state: `is_right` shuts it out. No `TryFrom`: `machine_of` is defined of any bits, and theorems of `laws_host` speak of them.
#[tactic(auto, unfolding(crate::specs::Crossing::state_of))]
fn state_of(n: u8) -> State
    ensures { result ≡ state_of n }
{
    match n {
        0 => State::N,
        1 => State::T,
        _ => State::S,
    }
}
