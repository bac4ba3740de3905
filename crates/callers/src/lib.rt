//! Callers of a controller and its image. They use nothing but the contracts of the calls, and so show what a caller learns
//! from those. See docs/controller.md.
#![tactic(auto)]

pub mod campaigns;
pub mod carriages;
pub mod cycles;
pub mod ending;
pub mod panel;
pub mod task;
