#![tactic(auto)]

// What the comparison with hardware promises (rules B1 to B9), proved in proofs/Promises.antt. No code.
