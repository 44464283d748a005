// Numbers as patterns of bits: what the casts share of the two float formats, rounding by a shift, the casts of integers, and the kinds of numbers.
#![tactic(auto)]

pub mod format;
pub mod integer;
pub mod kind;
pub mod rounding;
