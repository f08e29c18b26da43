// What each event does on its own thread, which it changes in place (rules E1, E3 to E11 and E14 to E19), by its family; what they share:
// `common`. Loads, stores, tlbie and tend. also read or write memory, or touch other threads: they are in the crate `effect`.
// A match by the state is a rule's own table of steps.
#![tactic(auto)]

pub mod aborts;
pub mod begins;
pub mod common;
pub mod plain;
pub mod reclaims;
pub mod returns;
pub mod special;
pub mod suspends;
