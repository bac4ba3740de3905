//! A loaded program and its scans, printed.
#![tactic(auto)]

pub mod listing;
pub mod scans;
