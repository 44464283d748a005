// The ten scalars, the cast from each to each, and whether it keeps the number.
#![tactic(auto)]

pub mod scalar;
