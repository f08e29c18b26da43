// The machine: one to four threads over a lent memory (rules M1 to M3).
#![tactic(auto)]

ghost use Rattle.std.specs.Prelude.{◌≡◌};
ghost use Rattle.machine.specs.Machine.{fresh};

use base::{CR_FIELDS, GPRS, THREADS};
use thread::{Control, Failure, Msr, Registers, Saved, State, Thread};
use transaction::Transaction;

// Four thread records, of which `count` are threads: no heap, fixed memory. C has `crossing::RawMachine`.
#[derive(Clone, Copy)]
pub struct Machine {
    pub count: usize,
    pub threads: [Thread; THREADS],
}

// The fresh machine: in problem state, with the facility on.
#[tactic(auto, unfolding(crate::specs::Machine::fresh, crate::specs::Machine::fresh_thread))]
pub fn fresh() -> Machine
    ensures { result ≡ fresh }
{
    let zeros = Registers {
        gpr: [0; GPRS],
        cr: [0; CR_FIELDS],
    };
    let t = Thread {
        live: zeros,
        cr0: 0,
        checkpoint: zeros,
        control: Control {
            nia: 0,
            msr: Msr {
                pr: true,
                tm: true,
                state: State::N,
                doomed: false,
            },
            failure: Failure {
                tfhar: 0,
                tfiar: 0,
                texasr: 0,
            },
            saved: Saved { srr0: 0, srr1: 0 },
        },
        transaction: Transaction::empty(),
    };
    Machine {
        count: THREADS,
        threads: [t; THREADS],
    }
}
