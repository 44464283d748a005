// What the demands ask to be proved, stated in specs/ over every crate below, and proved in proofs/; there is no code here.
#![tactic(auto)]
