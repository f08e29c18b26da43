#![tactic(auto)]

// Theorems about a run: it is its steps; what it counts, where it ends, and what it answers. No code.
