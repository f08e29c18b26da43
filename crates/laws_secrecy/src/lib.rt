#![tactic(auto)]

// The third demand: a transaction's data can't be seen before it commits. Theorems, no code.
