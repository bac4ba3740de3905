//! What the arguments of the program ask for.
#![tactic(auto)]

pub mod command;
