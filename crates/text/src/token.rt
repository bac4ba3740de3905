//! What a chart text is cut into.

/// The words of the chart language.
#[derive(Clone, Copy, PartialEq, Eq, Debug)]
pub enum Word {
    Step,
    Initial,
    Trans,
    From,
    To,
    When,
    Hold,
    Enter,
    Set,
    Reset,
}

/// The letter of an operand.
#[derive(Clone, Copy, PartialEq, Eq, Debug)]
pub enum Letter {
    I,
    Q,
    X,
}

#[derive(Clone, Copy, PartialEq, Eq, Debug)]
pub enum TokenKind {
    Keyword(Word),
    Digits(u16),
    Operand(Letter, u16),
    Comma,
    Dot,
    Plus,
    Bang,
    Open,
    Close,
    Slash,
    Backslash,
    LineEnd,
}

/// A token with the byte offset at which it begins.
#[derive(Clone, Copy, PartialEq, Eq, Debug)]
pub struct Token {
    pub kind: TokenKind,
    pub place: usize,
}
