// Which threads failed in an event (rule H8). The answer tells only of the event's own thread.
ghost use Rattle.std.specs.Prelude.{◌≡◌, ◌<◌, ◌≤◌};
ghost use Rattle.base.specs.Below.{bit};
ghost use Rattle.base.specs.Limits.{most_threads};
ghost use Rattle.host_rules.specs.Failed.{fails, failed};

use base::answer;
use event::{Fields, TEND};
use machine::Machine;
use step_rules::Done;

// Thread v failed: its own event handled its failure; or its transaction ended, and not by its own tend. By the number in
// `Done`, as `fails` is defined.
fn fails(f: Fields, m: &Machine, d: &Done, v: usize) -> u8
    requires { v < most_threads }
    ensures value { result ≡ bit (fails f m.now d.now v) }
    ensures upper_bound { result ≤ 1 }
{
    let own = usize::from(f.thread) == v;
    let handled = d.answer == answer::HANDLED;
    let ended = m.threads[v].is_live() && !d.machine.threads[v].is_live();
    u8::from((own && handled) || (ended && !(own && f.kind == TEND)))
}

// The mask of a step's outcome, a bit for each thread, that of thread 0 lowest. Four terms, as `failed` is defined.
#[tactic(auto, unfolding(host_rules::specs::Failed::failed))]
pub fn failed(f: Fields, m: &Machine, d: &Done) -> u8
    ensures { result ≡ failed f m.now d.now }
{
    fails(f, m, d, 0) + 2 * fails(f, m, d, 1) + 4 * fails(f, m, d, 2) + 8 * fails(f, m, d, 3)
}
