//! The scan of one frame: the states that a program goes through, and the verdict on them.
#![tactic(auto)]

pub mod outcome;
pub mod scan;
mod shown;
