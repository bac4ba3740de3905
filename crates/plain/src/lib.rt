//! The calls of a campaign and their answers, the plain chart that the answers are compared with, and worked examples.
#![tactic(auto)]

pub mod calls;
mod outputs;
pub mod shown;
pub mod table;
