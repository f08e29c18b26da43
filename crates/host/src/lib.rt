// The entry points for C and Rust hosts (include/naszeptan.h). A machine crosses by value as plain numbers, so any bits may be handed in.
// C calls each by its name, with flat structs, numbers for answers, and each part lent apart: so twins stay twins here.
#![tactic(auto)]

pub mod compare;
pub mod editions_two;
pub mod entries;
pub mod sessions;

// The version of the rules: the model's version above, the landed change requests below.
pub const VERSION: u32 = 0x0004_000A;
