// What holds of the open hash over all messages and all cuttings. It has no code: the theorems are in proofs/.
#![tactic(auto)]
