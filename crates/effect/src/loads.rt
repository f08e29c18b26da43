// A load of some bytes of a doubleword (rules A1, A2 and A4). ld is all eight.
ghost use Rattle.std.specs.Prelude.{◌≡◌, ◌+◌, ◌<◌, ◌≤◌, length};
ghost use Rattle.transaction.specs.Inner.{Lined};
ghost use Rattle.base.specs.Limits.{lines, most_places, gprs};
ghost use Rattle.doubleword.specs.Doubleword.{bytes};
ghost use Rattle.transaction.specs.Transaction.{line};
ghost use Rattle.power_rules.specs.Access.{load};
ghost use Rattle.effect.specs.Landed.{landed, left};

use crate::{Part, Went};
use base::LINE;
use power::common;
use thread::{State, Thread};
use transaction::{Cause, Touch};

// The register takes what the thread sees. In T the line joins the read set, unless ROT. The count is asked, as by the methods of `Transaction`.
#[tactic(auto, unfolding(power_rules::specs::Access::load, transaction::specs::Transaction::written))]
pub fn load(t: &mut Thread, memory: &[u64], rt: u8, part: Part) -> Went
    requires places_bound { t.old.transaction.count ≤ most_places }
    requires rt_bound { rt < gprs }
    requires line_bound { line part.index < lines }
    requires index_bound { part.index < length memory.now }
    requires width_nonzero { 0 < part.width }
    requires width_bound { part.low + part.width ≤ bytes }
    ensures landed { left result t.new memory.now
        ≡ landed (load t.old.control.msr.state t.old rt part.index part.low part.width memory.now) t.old.transaction memory.now }
    ensures lined { Lined result.touch }
{
    let line = part.index as usize / LINE;
    let tracked = thread::rot(t.control.failure.texasr) == 0;
    if tracked && t.control.msr.state == State::T {
        if t.transaction.is_crowded(line) {
            return crate::quiet(common::fails(t, Cause::Footprint));
        }
        t.transaction.join(part.index);
    }
    let seen = t.transaction.load(memory, part.index);
    t.live.gpr[rt as usize] = doubleword::part(part.low, part.width, seen);
    Went {
        completion: common::passes(t),
        touch: Touch::Load(line),
    }
}
