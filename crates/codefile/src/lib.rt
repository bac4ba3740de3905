//! Code files: the initial steps and the three parts of a program, read from bytes and written.
#![tactic(auto)]

mod contents;
mod directory;
pub mod format;
mod headed;
mod load;
mod parts;
pub mod program;
pub mod write;
