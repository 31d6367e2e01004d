// How numbers and lists are written: digits of a base, texts in quotes, pieces between separators, and what is read of each. In specs/ and
// proofs/, for every crate above. No code.
#![tactic(auto)]
