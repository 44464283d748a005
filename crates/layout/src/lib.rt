// Layouts of points: attributes with offsets, soundness, and how a layout is made and asked.
#![tactic(auto)]

pub mod lookup;
pub mod point_layout;
