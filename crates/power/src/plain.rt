// addi, the disallowed instruction, the interrupt, and the host's setting of PR and TM.
ghost use Rattle.std.specs.Prelude.{◌≡◌, ◌<◌};
ghost use Rattle.base.specs.Answers.{completion_number};
ghost use Rattle.base.specs.Limits.{gprs};
ghost use Rattle.power_rules.specs.Common.{did};
ghost use Rattle.power_rules.specs.Plain.{extended, addi, disallowed, interrupted, interrupt, host};

use crate::common;
use base::answer::Completion;
use thread::{Msr, Saved, State, Thread};
use transaction::Cause;

// Where a handler begins.
const HANDLER: u64 = 0x500;

// SI sign-extended from 16 bits, by the library.
fn extended(si: u16) -> u64
    ensures { result ≡ extended si }
{
    i64::from(si.cast_signed()).cast_unsigned()
}

// addi (RT, RA, SI)
#[tactic(auto, unfolding(power_rules::specs::Plain::addi))]
pub fn addi(t: &mut Thread, rt: u8, ra: u8, si: u16) -> Completion
    requires rt_lt_gprs { rt < gprs }
    requires ra_lt_gprs { ra < gprs }
    ensures { did (completion_number result) t.new ≡ addi t.old rt ra si }
{
    t.live.gpr[rt as usize] = common::gpr_or_0(t, ra).wrapping_add(extended(si));
    common::passes(t)
}

// A disallowed instruction. It and `tsuspend` in `suspends` are alike in shape alone.
#[tactic(auto, unfolding(power_rules::specs::Plain::disallowed))]
pub fn disallowed(t: &mut Thread) -> Completion
    ensures { did (completion_number result) t.new ≡ disallowed t.old.control.msr.state t.old }
{
    match t.control.msr.state {
        State::T => common::fails(t, Cause::Disallowed),
        State::N | State::S => common::passes(t),
    }
}

fn interrupted(s: State) -> State
    ensures { result ≡ interrupted s }
{
    match s {
        State::N => State::N,
        State::T | State::S => State::S,
    }
}

// An interrupt taken: the handler runs in S, and a failure there waits for tresume, rfid or mtmsrd. What was there is saved before anything
// changes.
#[tactic(auto, unfolding(power_rules::specs::Plain::interrupt))]
pub fn interrupt(t: &mut Thread) -> Completion
    ensures { did (completion_number result) t.new ≡ interrupt t.old }
{
    let msr = t.control.msr;
    t.control.saved = Saved {
        srr0: t.control.nia,
        srr1: msr.srr1(),
    };
    t.control.nia = HANDLER;
    t.control.msr = Msr {
        pr: false,
        tm: false,
        state: interrupted(msr.state),
        ..msr
    };
    Completion::Done
}

// The host sets PR and TM.
#[tactic(auto, unfolding(power_rules::specs::Plain::host))]
pub fn host(t: &mut Thread, pr: bool, tm: bool) -> Completion
    ensures { did (completion_number result) t.new ≡ host t.old pr tm }
{
    t.control.msr.pr = pr;
    t.control.msr.tm = tm;
    Completion::Done
}
