#![tactic(auto)]

// K1 to K10 of docs/RULES.md, proved in proofs/Bench.antt. No code.
