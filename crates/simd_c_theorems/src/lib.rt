// What holds of the calls for C over all cuttings of a message. It has no code: the theorem is in proofs/.
#![tactic(auto)]
