// What C and Rust hosts link against: the functions of `host` under their C names, each with the same contract (include/naszeptan.h).
// Each once more: no other crate can call a static library (docs/DECISIONS.md), and `host` is a library.
#![tactic(auto)]

pub mod compare;
pub mod editions_two;
pub mod entries;
pub mod sessions;
