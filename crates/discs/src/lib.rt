//! discs.rs: regions over their pieces, the radius, and all marks.
#![tactic(auto)]

pub mod bundle;
pub mod ceiling;
pub mod layout;
pub mod options;
pub mod piece;
pub mod pieces;
pub mod radius;
pub mod region;
pub mod rows;
pub mod trial;
pub mod zone;
