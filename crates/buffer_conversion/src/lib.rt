// The conversion of points by a plan.
#![tactic(auto)]

pub mod convert;
