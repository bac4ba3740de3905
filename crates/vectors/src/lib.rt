//! Tests: chart texts and code files at each limit and one past it, charts and files that run, a fault on its way up,
//! a list's room, and a search.
#![tactic(auto)]

#[cfg(test)]
mod charts;
#[cfg(test)]
mod files;
pub mod ladder;
#[cfg(test)]
mod room_tests;
#[cfg(test)]
mod scan_tests;
#[cfg(test)]
mod search_tests;
#[cfg(test)]
mod tests;
#[cfg(test)]
mod text_tests;
#[cfg(test)]
mod texts;
