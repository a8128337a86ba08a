// What holds of the keyed hash over all keys, messages and cuttings. It has no code: the theorems are in proofs/.
#![tactic(auto)]
