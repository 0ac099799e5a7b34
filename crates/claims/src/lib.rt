//! What holds of every sheet, proved of the definitions. It has no functions.
#![tactic(auto)]
