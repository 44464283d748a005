// The casts between the two formats of floats.
#![tactic(auto)]

pub mod float;
