//! The items of jobs and sheets, and a job's rings and pieces.
#![tactic(auto)]

pub mod numbers;
pub mod pieces;
pub mod reader;
pub mod refusal;
pub mod words;
