//! The calls, and what they answer.
use faults::Fault;
use verdict::outcome::Verdict;

#[derive(Clone, Copy, PartialEq, Eq, Debug)]
pub enum Call {
    Sample,
    Work,
    Deliver,
    Abandon,
    Restart,
    /// The image goes on.
    Advance,
}

#[derive(Clone, Copy, PartialEq, Eq, Debug)]
pub enum Answer {
    Done,
    /// Worked: the verdict.
    Found(Verdict),
    /// Delivered: the frame.
    Delivered(u64),
    Refused(Fault),
}

/// What is written down of a call: its answer, and the steps that are active after it.
#[derive(Clone, Copy, PartialEq, Eq, Debug)]
pub struct Entry {
    pub answer: Answer,
    pub active: u64,
}
