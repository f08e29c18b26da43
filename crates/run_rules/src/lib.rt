// A tape run on a machine, by definition (rules R1 to R5): `specs`. The code is in run.
#![tactic(auto)]

use machine::Machine;

// The answer that ended the run (0 at the tape's end), how many records were done, the index of the record that the answer is about, and the
// machine after exactly the records done. The answer is a number, as `play`, `run` and the theorems over them have it.
#[derive(Clone, Copy)]
pub struct Ended {
    pub answer: u8,
    pub count: usize,
    pub index: usize,
    pub machine: Machine,
}
