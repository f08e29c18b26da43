// tend. (rule E2).
ghost use Rattle.std.specs.Prelude.{◌≡◌, ◌≤◌};
ghost use Rattle.base.specs.Answers.{completion_number};
ghost use Rattle.base.specs.Limits.{most_places};
ghost use Rattle.transaction.specs.declared.Touch.TheVariants.{Untouched};
ghost use Rattle.power_rules.specs.Ends.{tend};
ghost use Rattle.effect.specs.Landed.{landed};

use base::answer::Completion;
use power::common;
use thread::{State, Thread};

// tend. (A): the last level, or A = 1, commits. In S it is a Bad Thing, which is refused before; the rule's clause for it is kept all the same.
// The count is asked, here and in `loads` and `stores`, as by the methods of `Transaction`.
#[tactic(auto, unfolding(power_rules::specs::Ends::tend, transaction::specs::Transaction::written))]
pub fn tend(t: &mut Thread, memory: &mut [u64], a: bool) -> Completion
    requires { t.old.transaction.count ≤ most_places }
    ensures { record { answer = completion_number result; thread = t.new; touch = Untouched; memory = memory.new }
        ≡ landed (tend t.old.control.msr.state t.old a) t.old.transaction memory.old }
{
    common::show_state(t);
    if t.control.msr.state == State::T {
        let level = thread::tl(t.control.failure.texasr);
        if a || level <= 1 {
            t.transaction.commit(memory);
            t.transaction.discard();
            t.control.failure.texasr -= level;
            t.control.msr.state = State::N;
        } else {
            t.control.failure.texasr -= 1;
        }
    }
    common::passes(t)
}
