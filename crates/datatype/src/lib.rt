// Datatypes of attributes, each with its size and its alignment, and how numbers are aligned.
#![tactic(auto)]

pub mod arithmetic;
pub mod datatype;
