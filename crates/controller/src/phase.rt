//! The phases, and what they allow.
use verdict::outcome::Outcome;

/// A phase keeps its open scan: the frame that was sampled and, once that is worked, what it comes to.
#[derive(Clone, Copy, PartialEq, Eq, Debug)]
pub enum Phase {
    Idle,
    Sampled(u64),
    Worked(u64, Outcome),
    /// A scan that was not stable has been delivered.
    Halted,
}

// What a controller is asked for. An advance is asked of the image, and is no matter of the phase.
#[derive(Clone, Copy, PartialEq, Eq, Debug)]
pub(crate) enum Request {
    Load,
    Sample,
    Work,
    Deliver,
    Abandon,
    Restart,
}

// What a request in turn goes on with, and the phase that follows, if it is known by then.
#[derive(Clone, Copy, PartialEq, Eq, Debug)]
pub(crate) enum Turn {
    // The image still has to give the frame.
    Sample,
    // The outcome of this frame still has to be found.
    Work(u64),
    // This phase follows if the image takes what the frame's outcome delivers.
    Deliver(u64, Outcome, Phase),
    // This phase follows.
    Enter(Phase),
}
