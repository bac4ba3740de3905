//! A refusal in words: its cause, its line and column, and what is shown of the text.
#![tactic(auto)]

pub mod cause;
pub mod excerpt;
pub mod position;
