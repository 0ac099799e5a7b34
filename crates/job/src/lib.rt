//! The reader of a job.
#![tactic(auto)]

pub mod before;
pub mod head;
pub mod keys;
pub mod read;
pub mod room;
pub mod zones;
