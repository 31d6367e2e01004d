// Lists put in the order of their keys: definitions and theorems alone, in `specs/` and `proofs/`.
#![tactic(auto)]
