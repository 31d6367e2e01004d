// The acidity sheet in inductive form, and the claims that exactly these sheets are read, respelled and refused: see specs/ and proofs/. No code.
#![tactic(auto)]
