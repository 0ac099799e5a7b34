//! regions.rs, `poi_with_holes`: the deepest point of a piece, and of the pieces of a zone.
#![tactic(auto)]

pub mod queue;
pub mod search;
pub mod seeds;
pub mod waiting;
