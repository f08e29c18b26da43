// tcheck, treclaim. and trechkpt.
ghost use Rattle.std.specs.Prelude.{◌≡◌, ◌<◌};
ghost use Rattle.base.specs.Answers.{completion_number};
ghost use Rattle.base.specs.Limits.{gprs};
ghost use Rattle.power_rules.specs.Common.{did};
ghost use Rattle.power_rules.specs.Reclaims.{check_field, tcheck, reclaims, treclaim, trechkpt};

use crate::common;
use base::answer::Completion;
use thread::{Control, State, Thread};

// TDOOMED, TS, 0
fn check_field(k: &Control) -> u8
    ensures { result ≡ check_field k.now }
{
    let ts = common::ts_field(k.msr.state);
    if k.msr.doomed { 8 + ts } else { ts }
}

// tcheck (BF): CR0 stands apart from the other fields.
#[tactic(auto, unfolding(power_rules::specs::Reclaims::tcheck))]
pub fn tcheck(t: &mut Thread, bf: u8) -> Completion
    requires { bf < 8 }
    ensures { did (completion_number result) t.new ≡ tcheck t.old bf }
{
    let field = check_field(&t.control);
    if bf == 0 {
        t.cr0 = field;
    } else {
        t.live.cr[(bf - 1) as usize] = field;
    }
    common::passes(t)
}

// The checkpoint put back, in N, with nothing held. Doomed is a bit that `set_state` takes, here and in `trechkpt`.
fn reclaims(t: &mut Thread)
    ensures { t.new ≡ reclaims t.old }
{
    t.restore();
    t.control.set_state(State::N, false);
    t.transaction.discard();
}

// treclaim. (RA): the cause is read from the live register before the checkpoint is put back.
#[tactic(auto, unfolding(power_rules::specs::Reclaims::treclaim))]
pub fn treclaim(t: &mut Thread, ra: u8) -> Completion
    requires { ra < gprs }
    ensures { did (completion_number result) t.new ≡ treclaim t.old ra }
{
    let ts = common::ts_field(t.control.msr.state);
    common::own_recording(t, common::abort_cause(t, ra));
    reclaims(t);
    t.cr0 = ts;
    common::passes(t)
}

// trechkpt.
#[tactic(auto, unfolding(power_rules::specs::Reclaims::trechkpt))]
pub fn trechkpt(t: &mut Thread) -> Completion
    ensures { did (completion_number result) t.new ≡ trechkpt t.old }
{
    t.take_checkpoint();
    t.cr0 = 0;
    t.control.set_state(State::S, true);
    common::passes(t)
}
