#![tactic(auto)]

// Examples of the third demand: what each part of its condition is needed for, steps that meet it and are useless. Theorems, no code.
