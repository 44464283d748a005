// Points converted into another buffer and back: what comes back and what stays, stated in specs/ and proved in proofs/; there is no code here.
#![tactic(auto)]
