//! The states of a running program: the start state, one evolution, the output frame; and that they are the chart's.
#![tactic(auto)]

mod evolve;
pub mod state;
