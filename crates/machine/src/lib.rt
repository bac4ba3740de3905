//! The instruction machine: it runs the words of a part of a program over its memory.
#![tactic(auto)]

mod bits;
mod machine;
pub mod memory;
mod operands;
mod run;
