//! The tokens of a text, in a list that is made once.
use crate::token::Token;
use room::Reserved;

// How many bytes the longest text has.
pub(crate) const LONGEST_TEXT: usize = 32768;

/// A list of tokens with room for those of any text.
#[derive(Drop)]
pub struct Tokens {
    pub(crate) list: Reserved<Token, LONGEST_TEXT>,
}
