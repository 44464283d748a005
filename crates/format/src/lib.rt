// Formats of sheets: definitions (specs/) and laws (proofs/); there is no code.
#![tactic(auto)]
