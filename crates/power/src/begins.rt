// tbegin.
ghost use Rattle.std.specs.Prelude.{◌≡◌, ◌<◌};
ghost use Rattle.base.specs.Answers.{completion_number};
ghost use Rattle.base.specs.Limits.{most_levels};
ghost use Rattle.thread.specs.Texasr.{tl, begun, nested};
ghost use Rattle.base.specs.Below.{bit};
ghost use Rattle.power_rules.specs.Common.{did};
ghost use Rattle.power_rules.specs.Begins.{tbegin};

use crate::common;
use base::LEVELS;
use base::answer::Completion;
use thread::{State, Thread};
use transaction::Cause;

// TEXASR's ROT bit.
const ROT: u64 = 0x0200_0000;

// TEXASR of a new transaction: level 1, with ROT.
fn begun(r: bool) -> u64
    ensures { result ≡ begun (bit r) }
{
    base::bit(r) * ROT + 1
}

// TEXASR after a tbegin. in a transaction whose level has room: one level more, and ROT off if R = 0 (rule E1).
fn nested(x: u64, r: bool) -> u64
    requires { tl x < most_levels }
    ensures { result ≡ nested x r }
{
    if r {
        x + 1
    } else {
        x - thread::rot(x) * ROT + 1
    }
}

// tbegin. (R)
#[tactic(auto, unfolding(power_rules::specs::Begins::tbegin))]
pub fn tbegin(t: &mut Thread, r: bool) -> Completion
    ensures { did (completion_number result) t.new ≡ tbegin t.old.control.msr.state t.old r }
{
    match t.control.msr.state {
        State::N => {
            common::show_state(t);
            t.take_checkpoint();
            t.control.failure.tfhar = common::next(t.control.nia);
            t.control.failure.texasr = begun(r);
            t.control.msr.state = State::T;
            common::passes(t)
        }
        State::T => {
            let texasr = t.control.failure.texasr;
            if thread::tl(texasr) >= LEVELS {
                common::fails(t, Cause::Nesting)
            } else {
                common::leveled(t, nested(texasr, r))
            }
        }
        State::S => common::cr0_only(t),
    }
}
