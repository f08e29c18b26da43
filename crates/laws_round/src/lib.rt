#![tactic(auto)]

// A record written and read back, and read and written back. Theorems, no code.
