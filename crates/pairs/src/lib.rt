// Document 01, section Cast, and document 02, point 9: which datatypes are copied or cast into which. `PairCounts` (specs/Claims.antt) counts 18
// copies, 110 casts and 196 times nothing.
#![tactic(auto)]

pub mod pair;
