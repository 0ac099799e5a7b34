//! polygon.rs and regions.rs: area, inside test and clearance of a piece. A piece is the sizes of
//! its rings in vertices, the outer ring first, and their vertices, ring after ring.
#![tactic(auto)]

pub mod area;
pub mod clearance;
pub mod four;
pub mod inside;
pub mod keeps;
pub mod margin;
pub mod piece;
pub mod pillars;
pub mod ring;
mod small;
pub mod unrooted;
