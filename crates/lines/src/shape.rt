//! What a line is read as. Its lists and its condition are parts of the tokens.
use text::token::Token;

/// A number with the place of its token. The readers promise that it is at most 63.
#[derive(Clone, Copy, PartialEq, Eq, Debug)]
pub struct Number {
    pub value: u8,
    pub place: usize,
}

/// A transition: the tokens of its preceding and of its succeeding steps, which are numbers with `,` between them, and
/// those of its condition.
#[derive(Clone, Copy, PartialEq, Eq, Debug)]
pub struct Transition<'a> {
    pub number: Number,
    pub from: &'a [Token],
    pub to: &'a [Token],
    pub condition: &'a [Token],
}

/// What happens to an output when its step becomes active.
#[derive(Clone, Copy, PartialEq, Eq, Debug)]
pub enum Action {
    Set,
    Reset,
}

#[derive(Clone, Copy, PartialEq, Eq, Debug)]
pub enum Line<'a> {
    Empty,
    /// A step, which is initial or not.
    Step {
        step: Number,
        initial: bool,
    },
    Trans(Transition<'a>),
    /// A step holds an output.
    Hold {
        step: Number,
        output: Number,
    },
    /// A step sets or resets an output when it becomes active.
    Enter {
        step: Number,
        action: Action,
        output: Number,
    },
}
