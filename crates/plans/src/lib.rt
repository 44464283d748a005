// Plans between two layouts.
#![tactic(auto)]

pub mod plan;
