//! The controller: it holds a program, and runs it over a process image, scan by scan. See docs/controller.md.
#![tactic(auto)]

mod calls;
pub mod campaign;
pub mod closing;
pub mod controller;
mod load;
pub mod phase;
pub mod scans;
