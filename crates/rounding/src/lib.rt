//! What rounding can do to a number: laws over exact values. It has no functions.
#![tactic(auto)]
