// The valid machine, clause by clause (rules V1 to V15), for any value of the struct, however broken.
#![tactic(auto)]

ghost use Rattle.std.specs.Prelude.{◌≡◌, ◌<◌, true};
ghost use Rattle.base.specs.Answers.{judgement_number};
ghost use Rattle.base.specs.Limits.{most_threads};
ghost use Rattle.machine.specs.Valid.{memory_sized, sized, registers_shaped, shaped, aligned, cr_small, fields_small, live_rules, state_rules, thread_valid, zero_registers, zero_control, zero_thread, thread_right, threads_right, valid, machine_number};

use base::answer::Refusal;
use base::{CR_FIELDS, FOOTPRINT, GPRS, LEVELS, LINE, MEMORY, PLACES, THREADS, WORDS};
use machine::Machine;
use thread::{Control, Failure, Msr, Registers, Saved, State, Thread};

// The registers of a record past the count: all zero (rule V3).
const NO_REGISTERS: Registers = Registers {
    gpr: [0; GPRS],
    cr: [0; CR_FIELDS],
};

const NO_CONTROL: Control = Control {
    nia: 0,
    msr: Msr {
        pr: false,
        tm: false,
        state: State::N,
        doomed: false,
    },
    failure: Failure {
        tfhar: 0,
        tfiar: 0,
        texasr: 0,
    },
    saved: Saved { srr0: 0, srr1: 0 },
};

fn memory_sized(len: usize) -> bool
    ensures { result ≡ memory_sized len }
{
    len % LINE == 0 && LINE <= len && len <= MEMORY
}

// Number 1: memory length and thread count.
#[tactic(auto, unfolding(machine::specs::Valid::sized))]
pub fn sized(m: &Machine, len: usize) -> bool
    ensures { result ≡ sized m.now len }
{
    memory_sized(len) && 1 <= m.count && m.count <= THREADS
}

// NIA and TFHAR are multiples of 4.
#[tactic(auto, unfolding(machine::specs::Valid::aligned))]
fn aligned(k: &Control) -> bool
    ensures { result ≡ aligned k.now }
{
    k.nia % 4 == 0 && k.failure.tfhar % 4 == 0
}

// CR fields 1 to 7 are below 16.
fn cr_small(r: &Registers) -> bool
    ensures { result ≡ cr_small r.now }
{
    r.cr.iter().all(|f| *f < 16)
}

// What a live transaction asks.
#[tactic(auto, unfolding(machine::specs::Valid::live_rules))]
fn live_rules(t: &Thread) -> bool
    ensures { result ≡ live_rules t.now }
{
    let level = thread::tl(t.control.failure.texasr);
    !t.control.failed()
        && 1 <= level
        && level <= LEVELS
        && t.transaction.reads.footprint(&t.transaction.writes) <= FOOTPRINT
}

// What each state asks: a case for each, as `state_rules` is defined.
#[tactic(auto, unfolding(machine::specs::Valid::state_rules))]
fn state_rules(t: &Thread) -> bool
    ensures { result ≡ state_rules t.now.control.msr.state t.now }
{
    let doomed = t.control.msr.doomed;
    match t.control.msr.state {
        State::N => !doomed && held::holds_nothing(&t.transaction),
        State::T => !doomed && live_rules(t),
        State::S if doomed => held::holds_nothing(&t.transaction) && t.control.failed(),
        State::S => live_rules(t),
    }
}

#[tactic(auto, unfolding(machine::specs::Valid::fields_small))]
fn fields_small(t: &Thread) -> bool
    ensures { result ≡ fields_small t.now }
{
    t.cr0 < 16 && cr_small(&t.live) && cr_small(&t.checkpoint)
}

// The arrays have their lengths. Their types say so: nothing is left of this test when it runs.
fn registers_shaped(r: &Registers) -> bool
    ensures { result ≡ registers_shaped r.now }
{
    r.gpr.as_slice().len() == GPRS && r.cr.as_slice().len() == CR_FIELDS
}

#[tactic(auto, unfolding(machine::specs::Valid::shaped))]
fn shaped(t: &Thread) -> bool
    ensures { result ≡ shaped t.now }
{
    let x = &t.transaction;
    registers_shaped(&t.live)
        && registers_shaped(&t.checkpoint)
        && x.reads.words.as_slice().len() == WORDS
        && x.writes.words.as_slice().len() == WORDS
        && x.log.as_slice().len() == PLACES
}

// A thread record below the count.
#[tactic(auto, unfolding(machine::specs::Valid::thread_valid))]
fn thread_valid(t: &Thread, len: usize) -> bool
    ensures { result ≡ thread_valid t.now len }
{
    shaped(t)
        && aligned(&t.control)
        && fields_small(t)
        && state_rules(t)
        && held::held_right(&t.transaction, len)
}

// `==` with the zero record, here and in `zero_control`: each has a definition of its own (rule V3).
#[tactic(auto, unfolding(machine::specs::Valid::zero_gpr, machine::specs::Valid::zero_cr))]
fn zero_registers(r: &Registers) -> bool
    requires { registers_shaped r.now ≡ true }
    ensures { result ≡ zero_registers r.now }
{
    *r == NO_REGISTERS
}

#[tactic(auto, unfolding(machine::specs::Valid::zero_control, machine::specs::Valid::zero_msr, machine::specs::Valid::zero_failure, machine::specs::Valid::zero_saved))]
fn zero_control(k: &Control) -> bool
    ensures { result ≡ zero_control k.now }
{
    *k == NO_CONTROL
}

// A thread record past the count: all zero (rule V3). Clause by clause, as `zero_thread` is defined.
#[tactic(auto, using(base::proofs::Below::and_left), unfolding(machine::specs::Valid::shaped, machine::specs::Valid::zero_thread))]
fn zero_thread(t: &Thread) -> bool
    ensures { result ≡ zero_thread t.now }
{
    shaped(t)
        && zero_registers(&t.live)
        && t.cr0 == 0
        && zero_registers(&t.checkpoint)
        && zero_control(&t.control)
        && held::holds_nothing(&t.transaction)
        && held::unused_zero(&t.transaction)
}

// Record w is a valid thread, or past the count and zero.
#[tactic(auto, unfolding(machine::specs::Valid::thread_right))]
fn thread_right(m: &Machine, len: usize, w: usize) -> bool
    requires { w < most_threads }
    ensures { result ≡ thread_right m.now len w }
{
    let t = &m.threads[w];
    if w < m.count {
        thread_valid(t, len)
    } else {
        zero_thread(t)
    }
}

fn threads_right(m: &Machine, len: usize) -> bool
    ensures { result ≡ threads_right m.now len }
{
    (0..THREADS).all(|w| thread_right(m, len, w))
}

// The whole of a valid machine, over a memory of len doublewords.
#[tactic(auto, unfolding(machine::specs::Valid::valid))]
fn valid(m: &Machine, len: usize) -> bool
    ensures { result ≡ valid m.now len }
{
    sized(m, len)
        && m.threads.as_slice().len() == THREADS
        && threads_right(m, len)
        && apart::apart(m)
}

// The tests 1 and 2, in this order.
#[tactic(auto, unfolding(machine::specs::Valid::machine_number))]
pub fn judged(m: &Machine, len: usize) -> Result<(), Refusal>
    ensures { judgement_number result ≡ machine_number m.now len }
{
    if !sized(m, len) {
        return Err(Refusal::Size);
    }
    if !valid(m, len) {
        return Err(Refusal::NoMachine);
    }
    Ok(())
}
