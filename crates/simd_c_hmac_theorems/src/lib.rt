// What holds of the calls for C that hold a keyed hash, over all keys and cuttings of a message. It has no code: the theorem is in proofs/.
#![tactic(auto)]
