// What each instruction does to its thread, by definition (rules E1 to E26): `specs`. The code is in `power` and `effect`.
#![tactic(auto)]

use thread::Thread;

// The answer, 0, 20 or 21, and the thread afterwards. The answer is a number, as `did` and the theorems over it have it.
#[derive(Clone, Copy)]
pub struct Did {
    pub answer: u8,
    pub thread: Thread,
}
