//! The instructions of a program.
ghost use Rattle.std.specs.Prelude.{◌≡◌};
ghost use Rattle.words.specs.Words.{read_of};

/// The parts of a program.
#[derive(Clone, Copy, PartialEq, Eq, Debug)]
pub enum Part {
    Clear,
    Enter,
    Hold,
}

/// What an instruction can read, with its number.
#[derive(Clone, Copy, PartialEq, Eq, Debug)]
pub enum Operand {
    Input(u8),
    Step(u8),
    /// A stored output.
    Output(u8),
    /// A rising edge of an input.
    Rise(u8),
    /// A falling edge of an input.
    Fall(u8),
    /// The constant on.
    Always,
    /// Whether a transition clears now.
    Cleared(u8),
    /// A step as the evolution found it.
    Before(u8),
}

/// What can be set and reset, with its number.
#[derive(Clone, Copy, PartialEq, Eq, Debug)]
pub enum Target {
    Step(u8),
    /// A stored output.
    Output(u8),
}

#[derive(Clone, Copy, PartialEq, Eq, Debug)]
pub enum Instruction {
    Load(Operand),
    LoadNot(Operand),
    And(Operand),
    AndNot(Operand),
    Or(Operand),
    OrNot(Operand),
    /// Opens a bracket whose value is joined by and.
    AndOpen,
    /// Opens a bracket whose value is joined by or.
    OrOpen,
    Close,
    Not,
    /// Stores the result as whether a transition clears.
    Store(u8),
    Set(Target),
    Reset(Target),
    /// Sets a held output.
    Hold(u8),
}

impl From<Target> for Operand {
    ghost from_gives = { λ t r. r ≡ read_of t };

    fn from(target: Target) -> Operand {
        match target {
            Target::Step(n) => Operand::Step(n),
            Target::Output(n) => Operand::Output(n),
        }
    }
}
