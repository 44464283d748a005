// The casts of floats to integers.
#![tactic(auto)]

pub mod truncation;
