//! Calls and answers as text, see docs/program.md.
ghost use Rattle.std.specs.Prelude.{◌≡◌, Some};
ghost use Rattle.plain.specs.Shown.{call_word, call_named, answer_text};

use crate::calls::{Answer, Call};
use std::fmt;

const CALLS: [Call; 6] = [
    Call::Sample,
    Call::Work,
    Call::Deliver,
    Call::Abandon,
    Call::Restart,
    Call::Advance,
];

impl Call {
    /// The call's word.
    pub fn word(self) -> &'static str
        ensures { result.now ≡ call_word self }
    {
        match self {
            Call::Sample => "sample",
            Call::Work => "work",
            Call::Deliver => "deliver",
            Call::Abandon => "abandon",
            Call::Restart => "restart",
            Call::Advance => "advance",
        }
    }

    /// The call whose word this is, if it is one's.
    pub fn named(word: &[u8]) -> Option<Call>
        ensures { result ≡ call_named word.now }
    {
        CALLS
            .iter()
            .copied()
            .find(|call| word == call.word().as_bytes())
    }
}

impl fmt::Display for Call {
    ghost output = { λ x. Some (call_word x) };

    fn fmt<W: fmt::Write>(&self, f: &mut fmt::Formatter<W>) -> fmt::Result {
        f.pad(self.word())
    }
}

/// A delivery is done, whatever frame it brings.
impl fmt::Display for Answer {
    ghost output = { λ x. Some (answer_text x) };

    fn fmt<W: fmt::Write>(&self, f: &mut fmt::Formatter<W>) -> fmt::Result {
        match *self {
            Answer::Done | Answer::Delivered(_) => f.pad("done"),
            Answer::Found(verdict) => write!(f, "{verdict}"),
            Answer::Refused(fault) => write!(f, "refused {fault}"),
        }
    }
}
