// What the calls on a list of records answer and leave, in specs/ and proofs/. It has no code.
#![tactic(auto)]
