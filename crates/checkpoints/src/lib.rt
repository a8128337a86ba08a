// What the index of a record and a correction from one are, and what holds of all corrections. This crate has no code: the definition is in
// specs/, the theorems are in proofs/.
#![tactic(auto)]
