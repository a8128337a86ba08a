// What a quote of a digest and its check digits are, and what a check finds. This crate has no code: the definition is in specs/, the theorems are in proofs/.
#![tactic(auto)]
