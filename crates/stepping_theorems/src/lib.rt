// The calls of stepping undo each other. It has no code: the theorems are in proofs/.
#![tactic(auto)]
