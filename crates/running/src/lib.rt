//! From a chart text to a running controller.
#![tactic(auto)]

pub mod call_list;
pub mod code_file;
mod load;
pub mod runner;
