//! The numbers of the format.
use words::list::MOST_WORDS;

/// What a code file begins with.
pub(crate) const MARK: &[u8] = b"SRI1";

/// The length of the longest code file: 44 bytes before the words, and four for each of `MOST_WORDS`.
pub const LONGEST_FILE: usize = 44 + 4 * MOST_WORDS;
