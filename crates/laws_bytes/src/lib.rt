#![tactic(auto)]

// What accesses of one, two, four and eight bytes share (rules M11, M17, A4 and A7; E12, E13 and E20 to E25), proved in proofs/. No code.
