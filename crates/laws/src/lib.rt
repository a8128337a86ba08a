// Laws of lists, sums and words that the proofs of several crates cite. It has no code: the laws are in proofs/.
#![tactic(auto)]
