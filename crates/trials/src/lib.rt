//! Tests: controllers over images, by campaigns and by hand.
#![tactic(auto)]

#[cfg(test)]
mod by_hand;
#[cfg(test)]
mod campaigns;
#[cfg(test)]
mod charts;
#[cfg(test)]
mod tasks;
