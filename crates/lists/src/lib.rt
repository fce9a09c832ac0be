//! Words and lemmas on lists that know nothing of what stands in them: `specs` has the words, `proofs` the lemmas, and there is
//! no code.
#![tactic(auto)]
