//! discs.rs: what a packing is at, escapes from obstacles, and the lattice packer.
#![tactic(auto)]

pub mod beside;
pub mod context;
pub mod count;
pub mod crossings;
pub mod edges;
pub mod escape;
pub mod gather;
pub mod level;
pub mod near;
pub mod nearest;
pub mod row;
pub mod rows;
pub mod site;
pub mod span;
pub mod spread;
pub mod tables;
pub mod uniform;
pub mod waiting;
pub mod walk;
