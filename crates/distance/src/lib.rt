// How many bits apart the expansions of two different blocks are. It has no code: the definitions are in specs/, the theorems in proofs/.
#![tactic(auto)]
