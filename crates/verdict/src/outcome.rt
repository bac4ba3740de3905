//! What a frame comes to.
use evolution::state::State;

#[derive(Clone, Copy, PartialEq, Eq, Debug)]
pub enum Verdict {
    /// s(m) is the first stable state.
    Stable(u8),
    /// No state is stable, and s(k) is the first that equals an earlier one, s(j): j, then k.
    Circling(u8, u8),
    /// The states s1 to s64 are all different, and not one of them is stable.
    Overlong,
}

#[derive(Clone, Copy, PartialEq, Eq, Debug)]
pub struct Outcome {
    pub verdict: Verdict,
    /// The stable state, or the state before the frame where there is none.
    pub state: State,
}
