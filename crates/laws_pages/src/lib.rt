#![tactic(auto)]

// Whom a tlbie makes fail (rules E26 and A6), proved in proofs/Pages.antt. No code.
