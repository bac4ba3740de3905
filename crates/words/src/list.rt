//! The words that a translation gives, as many as a controller has room for.
use room::Reserved;

/// The most words that a program has in all its parts together, and the most that a list keeps.
pub const MOST_WORDS: usize = 4096;

/// The first `MOST_WORDS` words that were emitted to it, and whether there were more.
#[derive(Drop)]
pub struct WordList {
    pub(crate) words: Reserved<u32, MOST_WORDS>,
    pub(crate) more: bool,
}
