// What a page for the ledger binder is, and what holds of all pages. This crate has no code: the definition is in specs/, the theorems are in proofs/.
#![tactic(auto)]
