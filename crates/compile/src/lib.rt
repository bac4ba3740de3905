//! From a chart text to its code file.
#![tactic(auto)]

mod compile;
pub mod compiler;
mod file;
