//! glyphs.rs, point.rs and rectangle.rs: options, points, obstacles and bounds; hash, stream, radical inverse and
//! quotas.
#![tactic(auto)]

pub mod bounds;
pub mod halton;
pub mod hash;
pub mod mode;
pub mod options;
pub mod quotas;
pub mod rect;
pub mod spots;
pub mod stream;
