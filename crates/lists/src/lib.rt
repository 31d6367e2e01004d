// The mathematics of lists of blocks, in specs/ and proofs/. It has no code.
#![tactic(auto)]
