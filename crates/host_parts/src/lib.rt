// What the entry points for hosts are made of: the tests 1 and 2 of any bits. Who failed: `failed`.
#![tactic(auto)]

pub mod failed;

ghost use Rattle.std.specs.Prelude.{◌≡◌};
ghost use Rattle.base.specs.Answers.{judgement_number};
ghost use Rattle.host_rules.specs.Host.{number};

use base::answer::Refusal;
use crossing::RawMachine;

// The tests 1 and 2 of any bits.
#[tactic(auto, unfolding(host_rules::specs::Host::number))]
pub fn judged(m: &RawMachine, len: usize) -> Result<(), Refusal>
    ensures { judgement_number result ≡ number m.now len }
{
    if m.is_right() {
        return validity::judged(&m.machine(), len);
    }
    if validity::sized(&m.machine(), len) {
        Err(Refusal::NoMachine)
    } else {
        Err(Refusal::Size)
    }
}
