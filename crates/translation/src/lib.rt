//! From the lines of a chart text to the words of its parts.
#![tactic(auto)]

pub mod draft;
mod emit;
mod limit;
mod translate;
