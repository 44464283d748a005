// Computed cases: definitions in specs/, one theorem for each table in proofs/; nothing runs here.
#![tactic(auto)]
