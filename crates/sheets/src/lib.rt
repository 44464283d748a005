// Mapping sheets, and three sheets in one input.
#![tactic(auto)]

pub mod frame;
pub mod mapping_sheet;
