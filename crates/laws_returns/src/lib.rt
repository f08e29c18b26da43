#![tactic(auto)]

// What comes of every return that can be asked for (rule E0.11), proved in proofs/Table.antt. No code.
