// What an event does to the machine, by definition: its effect by its kind, the others that it makes fail, its refusal, the step: `specs`. The code
// is in power and effect, conflict, refusal and step.
#![tactic(auto)]

use machine::Machine;

// A step's answer and the machine after it. The answer is a number, as `outcome` and the theorems over it have it.
#[derive(Clone, Copy)]
pub struct Done {
    pub answer: u8,
    pub machine: Machine,
}
