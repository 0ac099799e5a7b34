//! Laws that the proofs of every layer share. It has no functions.
#![tactic(auto)]
