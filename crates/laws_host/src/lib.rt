#![tactic(auto)]

// What a host is promised: a machine crosses unchanged, and what is refused changes nothing. Theorems, no code.
