//! What a condition is made of.
use text::token::Letter;

/// An operand of a condition.
#[derive(Clone, Copy, PartialEq, Eq, Debug)]
pub enum Atom {
    Plain(Letter, u8),
    Rise(u8),
    Fall(u8),
    Always,
}
