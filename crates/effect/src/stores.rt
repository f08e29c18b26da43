// A store of some bytes of a doubleword (rules A1, A2 and A4). std is all eight.
ghost use Rattle.std.specs.Prelude.{◌≡◌, ◌<◌, ◌≤◌, length};
ghost use Rattle.transaction.specs.Inner.{Lined};
ghost use Rattle.base.specs.Limits.{lines, most_places};
ghost use Rattle.transaction.specs.Transaction.{line};
ghost use Rattle.power_rules.specs.Access.{store};
ghost use Rattle.effect.specs.Landed.{landed, left};

use crate::Went;
use base::LINE;
use power::common;
use thread::{State, Thread};
use transaction::{Cause, Touch};

// A store of the marked bytes of a value: in T to the log, and no memory changes. The count is asked, as by the methods of `Transaction`. In S the
// thread's own failure is exact: the bit that `meets_own` takes.
#[tactic(auto, unfolding(power_rules::specs::Access::store, power_rules::specs::Access::logs, transaction::specs::Transaction::written))]
pub fn store(t: &mut Thread, memory: &mut [u64], index: u32, marks: u8, value: u64) -> Went
    requires places_bound { t.old.transaction.count ≤ most_places }
    requires line_bound { line index < lines }
    requires index_bound { index < length memory.old }
    ensures landed { left result t.new memory.new ≡ landed (store t.old.control.msr.state t.old index marks value) t.old.transaction memory.old }
    ensures lined { Lined result.touch }
{
    let line = index as usize / LINE;
    let completion = match t.control.msr.state {
        State::N => {
            transaction::put(memory, index as usize, marks, value);
            common::passes(t)
        }
        State::T => {
            let at = t.transaction.lookup(index);
            if t.transaction.is_crowded(line) || t.transaction.is_full(at) {
                return crate::quiet(common::fails(t, Cause::Footprint));
            }
            t.transaction.store_at(at, index, marks, value);
            common::passes(t)
        }
        State::S => {
            transaction::put(memory, index as usize, marks, value);
            let met = t.transaction.touches(line);
            common::meets_own(t, met, Cause::OwnStore, true)
        }
    };
    Went {
        completion,
        touch: Touch::Store(line),
    }
}
