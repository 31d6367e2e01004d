// What respelling a sheet answers and leaves, in specs/ and proofs/. It has no code: that is in `sheet`.
#![tactic(auto)]
