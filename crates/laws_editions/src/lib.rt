#![tactic(auto)]

// Theorems about the two editions of the tape. No code: specs/ states them, proofs/ proves them.
