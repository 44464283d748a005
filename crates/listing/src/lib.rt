// The listing of a plan as bytes in a lent text.
#![tactic(auto)]

mod lines;
pub mod lister;
mod text;
