//! Frames: 64 bits each, one for each step, input or output.
#![tactic(auto)]

pub mod bits;
pub mod edges;
