#![tactic(auto)]

// Leaks that the third demand catches: variants of the step of which it is false. Theorems, no code.
