//! The memory that the machine works on.

/// Bit n of a frame is the operand numbered n of its area.
#[derive(Clone, Copy, PartialEq, Eq, Debug)]
pub struct Memory {
    /// X: the active steps.
    pub active: u64,
    /// Q: the stored outputs.
    pub stored: u64,
    /// P: the active steps of the state that the evolution began from.
    pub before: u64,
    /// T: the transitions that clear.
    pub cleared: u64,
    /// H: the held outputs.
    pub held: u64,
    /// I: the inputs.
    pub inputs: u64,
    pub rises: u64,
    pub falls: u64,
}
