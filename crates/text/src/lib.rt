//! The tokens of a chart text.
#![tactic(auto)]

mod cut;
pub mod token;
pub mod tokens;
mod word;
