// One event on a machine: refused with nothing changed, or done on its own thread, on memory and on the other threads.
#![tactic(auto)]

ghost use Rattle.std.specs.Prelude.{◌≡◌, true, length};
ghost use Rattle.base.specs.Answers.{answer_of};
ghost use Rattle.machine.specs.Valid.{valid};
ghost use Rattle.step_rules.specs.Step.{outcome, step};

use base::answer::{self, Completion, Refusal};
use event::Event;
use machine::Machine;
use step_rules::Done;

// The step on a machine that is known to be valid, in place: a run's machine stays so.
#[tactic(auto, using(crate::proofs::Steps::steps))]
pub fn step_in_place(
    m: &mut Machine,
    memory: &mut [u64],
    thread: u8,
    event: Event,
) -> Result<Completion, Refusal>
    requires { valid m.old (length memory.old) ≡ true }
    ensures { outcome (answer_of result) m.new memory.new ≡ step m.old memory.old thread event }
{
    let w = thread as usize;
    if m.count <= w {
        return Err(Refusal::NoThread);
    }
    let own = &mut m.threads[w];
    refusal::refused(&own.control, event, memory.len())?;
    // Its own thread goes first, then the others, by the state that it was done in.
    let state = own.control.msr.state;
    let went = effect::effect(own, memory, event);
    conflict::others(&mut m.threads, w, went.touch, state);
    Ok(went.completion)
}

// The public entry: any machine, memory, thread and event may be handed in.
#[tactic(auto, using(crate::proofs::Steps::not_valid, machine::proofs::Validity::passes_valid))]
pub fn step(m: Machine, mem: &mut [u64], thread: u8, e: Event) -> Done
    ensures value { result ≡ (step m mem.old thread e).done }
    ensures mem_after { mem.new ≡ (step m mem.old thread e).memory }
{
    if let Err(refusal) = validity::judged(&m, mem.len()) {
        return Done {
            answer: refusal.number(),
            machine: m,
        };
    }
    let mut machine = m;
    let answer = answer::number(step_in_place(&mut machine, mem, thread, e));
    Done { answer, machine }
}
