//! The checks of a chart: what a text that is read may still get wrong.
#![tactic(auto)]

pub mod checker;
mod findings;
mod passes;
mod seen;
mod set;
mod table;
