// Where a strict text goes wrong, in specs/ and proofs/. It has no code.
#![tactic(auto)]
