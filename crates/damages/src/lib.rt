//! Damaged copies of a file, and the answers to them.
#![tactic(auto)]

pub mod damage;
