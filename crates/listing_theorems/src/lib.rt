// That the lines in turn are the listing, and listings of short tapes. It has no code: the theorems are in proofs/ and specs/.
#![tactic(auto)]
