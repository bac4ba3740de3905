//! The machine while it runs a part: one instruction after the other.
ghost use Rattle.std.specs.Prelude.{◌≡◌, ◌+◌, ◌-◌, ◌<◌, ◌≤◌, ◌∷◌, false};
ghost use Rattle.words.specs.Words.{number_in, word_of};
ghost use Rattle.words.specs.Brackets.{spoils, after};
ghost use Rattle.machine.specs.Machine.{begin, joined as joined_by, step as stepped};

use crate::memory::Memory;
use words::instruction::Instruction;

// An open bracket: its operator, and the result that was pushed with it.
#[derive(Clone, Copy)]
pub(crate) enum Bracket {
    And(bool),
    Or(bool),
}

// The result, the brackets, of which the first `depth` are open, and the memory.
#[derive(Drop)]
pub(crate) struct Machine {
    result: bool,
    brackets: [Bracket; 17],
    depth: usize,
    pub(crate) memory: Memory,
    ghost within: { depth ≤ 17 },
}

// A popped bracket, combined with the result.
fn joined(bracket: Bracket, inside: bool) -> bool
    ensures { result ≡ joined_by bracket inside }
{
    match bracket {
        Bracket::And(before) => before && inside,
        Bracket::Or(before) => before || inside,
    }
}

impl Machine {
    ghost use Rattle.machine.specs.View.{stacked, view};

    // A machine at the beginning of a part.
    pub(crate) fn new(memory: Memory) -> Machine
        ensures state { view result ≡ begin memory }
        ensures depth { result.depth ≡ 0 }
    {
        Machine {
            result: false,
            brackets: [Bracket::And(false); 17],
            depth: 0,
            memory,
        }
    }

    // Opens a bracket.
    #[tactic(auto, using(crate::proofs::Stacks::stacked_more))]
    fn push(&mut self, bracket: Bracket)
        requires { self.old.depth < 17 }
        ensures depth { self.new.depth ≡ self.old.depth + 1 }
        ensures stack { stacked self.new.depth self.new.brackets ≡ bracket ∷ stacked self.old.depth self.old.brackets }
        ensures result { self.new.result ≡ self.old.result }
        ensures memory { self.new.memory ≡ self.old.memory }
    {
        self.brackets[self.depth] = bracket;
        self.depth += 1;
    }

    // Closes the bracket that was opened last.
    fn pop(&mut self) -> Bracket
        requires { 0 < self.old.depth }
        ensures depth { self.new.depth ≡ self.old.depth - 1 }
        ensures stack { stacked self.old.depth self.old.brackets ≡ result ∷ stacked self.new.depth self.new.brackets }
        ensures result { self.new.result ≡ self.old.result }
        ensures memory { self.new.memory ≡ self.old.memory }
    {
        self.depth -= 1;
        self.brackets[self.depth]
    }

    // Runs an instruction.
    pub(crate) fn step(&mut self, instruction: Instruction)
        requires number { number_in instruction < 64 }
        requires brackets { spoils self.old.depth (word_of instruction) ≡ false }
        ensures state { view self.new ≡ stepped instruction (view self.old) }
        ensures depth { self.new.depth ≡ after self.old.depth (word_of instruction) }
    {
        match instruction {
            Instruction::Load(x) => self.result = self.memory.reads(x),
            Instruction::LoadNot(x) => self.result = !self.memory.reads(x),
            Instruction::And(x) => self.result = self.result && self.memory.reads(x),
            Instruction::AndNot(x) => self.result = self.result && !self.memory.reads(x),
            Instruction::Or(x) => self.result = self.result || self.memory.reads(x),
            Instruction::OrNot(x) => self.result = self.result || !self.memory.reads(x),
            Instruction::AndOpen => self.push(Bracket::And(self.result)),
            Instruction::OrOpen => self.push(Bracket::Or(self.result)),
            Instruction::Close => self.result = joined(self.pop(), self.result),
            Instruction::Not => self.result = !self.result,
            Instruction::Store(n) => self.memory.store(self.result, n),
            Instruction::Set(target) => self.memory.set(self.result, target),
            Instruction::Reset(target) => self.memory.reset(self.result, target),
            Instruction::Hold(n) => self.memory.hold(self.result, n),
        }
    }
}
