// Document 01, section Cast: one attribute's bytes as another's.
// All 110 casts are covered by one contract: `cast_attribute` gives the target the bytes that `cast_bytes` (specs/Attributes.antt) defines for any
// two datatypes, and `ByComponent` (specs/Claims.antt) says what they are where the pair is a cast.
#![tactic(auto)]

pub mod attribute;
mod bytes;
