//! discs.rs: the low-discrepancy and the random packer.
#![tactic(auto)]

pub mod cells;
pub mod low;
pub mod random;
pub mod sequence;
pub mod site;
