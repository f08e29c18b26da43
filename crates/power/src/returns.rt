// rfid and mtmsrd: a return from an interrupt, by what is asked for.
ghost use Rattle.std.specs.Prelude.{◌≡◌};
ghost use Rattle.base.specs.Answers.{completion_number};
ghost use Rattle.power_rules.specs.Common.{did};
ghost use Rattle.power_rules.specs.Returns.{goes, reached, returning, rfid, mtmsrd};

use crate::common;
use base::answer::Completion;
use thread::turns::{Asked, Turn};
use thread::{Msr, State, Thread, turns};
use transaction::Cause;

// On at an address in a state, with PR and TM: in T its failure, if it is doomed, is handled.
fn goes(t: &mut Thread, state: State, pr: bool, tm: bool, at: u64) -> Completion
    ensures { did (completion_number result) t.new ≡ reached state (goes t.old state pr tm at) }
{
    t.control.msr = Msr {
        pr,
        tm,
        state,
        ..t.control.msr
    };
    t.control.nia = at;
    if state == State::T && t.control.msr.doomed {
        t.handle();
        Completion::Handled
    } else {
        Completion::Done
    }
}

// What comes of what is asked. A Bad Thing was refused before.
#[tactic(auto, unfolding(power_rules::specs::Returns::taking))]
fn returned(t: &mut Thread, a: Asked, at: u64) -> Completion
    ensures { did (completion_number result) t.new ≡ returning t.old a at }
{
    match t.control.msr.turned(a) {
        Turn::Bad => Completion::Done,
        Turn::Fails => common::fails(t, Cause::Disallowed),
        Turn::To { state, tm } => goes(t, state, a.pr, tm, at),
    }
}

// rfid goes on at SRR0 without its two low bits.
#[tactic(auto, unfolding(power_rules::specs::Returns::rfid))]
pub fn rfid(t: &mut Thread) -> Completion
    ensures { did (completion_number result) t.new ≡ rfid t.old }
{
    let saved = t.control.saved;
    returned(t, turns::by_srr1(saved.srr1), saved.srr0 - saved.srr0 % 4)
}

// mtmsrd (TS in two bits, TM, PR) goes on behind itself. It and `tabort` in `aborts` are alike in shape alone.
#[tactic(auto, unfolding(power_rules::specs::Returns::mtmsrd))]
pub fn mtmsrd(t: &mut Thread, a: Asked) -> Completion
    ensures { did (completion_number result) t.new ≡ mtmsrd t.old a.t a.s a.tm a.pr }
{
    returned(t, a, common::next(t.control.nia))
}
