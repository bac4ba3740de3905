//! The lines of a chart text, read from its tokens.
#![tactic(auto)]

pub mod line;
mod parts;
pub mod shape;
pub mod steps;
