// The mathematics of blocks and ranges, in specs/ and proofs/. It has no code: that of ranges is in `runs`.
#![tactic(auto)]
