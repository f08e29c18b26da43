// tsr.
ghost use Rattle.std.specs.Prelude.{◌≡◌};
ghost use Rattle.base.specs.Answers.{completion_number};
ghost use Rattle.power_rules.specs.Common.{did};
ghost use Rattle.power_rules.specs.Suspends.{moves, tsuspend, tresume, tsr};

use crate::common;
use base::answer::Completion;
use thread::{State, Thread};

// CR0 from state, and on in another state.
fn moves(t: &mut Thread, state: State) -> Completion
    ensures { did (completion_number result) t.new ≡ moves t.old state }
{
    common::show_state(t);
    t.control.msr.state = state;
    common::passes(t)
}

// L = 0: from T to S.
#[tactic(auto, unfolding(power_rules::specs::Suspends::tsuspend))]
fn tsuspend(t: &mut Thread) -> Completion
    ensures { did (completion_number result) t.new ≡ tsuspend t.old.control.msr.state t.old }
{
    match t.control.msr.state {
        State::T => moves(t, State::S),
        State::N | State::S => common::cr0_only(t),
    }
}

// A failure that was recorded in S is handled here.
#[tactic(auto, unfolding(power_rules::specs::Suspends::tresume))]
fn tresume(t: &mut Thread) -> Completion
    ensures { did (completion_number result) t.new ≡ tresume t.old.control.msr.state t.old }
{
    match t.control.msr.state {
        State::S if t.control.msr.doomed => {
            t.handle();
            Completion::Handled
        }
        State::S => moves(t, State::T),
        State::N | State::T => common::cr0_only(t),
    }
}

// tsr. (L): l is the instruction's operand.
#[tactic(auto, unfolding(power_rules::specs::Suspends::tsr))]
pub fn tsr(t: &mut Thread, l: bool) -> Completion
    ensures { did (completion_number result) t.new ≡ tsr t.old l }
{
    if l { tresume(t) } else { tsuspend(t) }
}
