// tlbie (rule E26).
ghost use Rattle.std.specs.Prelude.{◌≡◌, List, ℕ, ◌<◌};
ghost use Rattle.transaction.specs.Inner.{Lined};
ghost use Rattle.base.specs.Limits.{pages};
ghost use Rattle.transaction.specs.declared.Transaction.{Transaction};
ghost use Rattle.power_rules.specs.Access.{tlbie};
ghost use Rattle.effect.specs.Landed.{landed, left};

use crate::Went;
use power::common;
use thread::{State, Thread};
use transaction::{Cause, Touch};

// tlbie (page), by the state as its rule has it: in T a disallowed instruction, which touches nothing. A page is a number, as in `Touch`. In S the
// thread's own failure is not exact: the bit that `meets_own` takes.
#[tactic(auto, unfolding(power_rules::specs::Access::tlbie, transaction::specs::Transaction::written))]
pub fn tlbie(t: &mut Thread, page: u32) -> Went
    requires { page < pages }
    ensures landed { (mem : List ℕ) (x : Transaction) → left result t.new mem ≡ landed (tlbie t.old.control.msr.state t.old page) x mem }
    ensures lined { Lined result.touch }
{
    let completion = match t.control.msr.state {
        State::N => common::passes(t),
        State::T => return crate::quiet(common::fails(t, Cause::Disallowed)),
        State::S => {
            let met = t.transaction.touches_page(page as usize);
            common::meets_own(t, met, Cause::Translation, false)
        }
    };
    Went {
        completion,
        touch: Touch::Page(page as usize),
    }
}
