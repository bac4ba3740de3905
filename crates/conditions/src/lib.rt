//! Conditions: their trees, their words, and the readers that emit them.
#![tactic(auto)]

pub mod condition;
mod depth;
pub mod rest;
pub mod tree;
