#![tactic(auto)]

// Theorems about one event: a step keeps a machine valid, and a refused event changes nothing. No code.
