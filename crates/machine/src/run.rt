//! Running the words of a part.
ghost use Rattle.std.specs.Prelude.{◌≡◌};
ghost use Rattle.machine.specs.Machine.{after};

use crate::machine::Machine;
use crate::memory::Memory;
use codefile::program::Program;
use words::codec::instruction;
use words::instruction::Part;

impl Memory {
    /// Runs the words of a part of a program. No word needs a test: the program's invariant stands for it.
    #[tactic(auto, unfolding(crate::specs::Machine::after))]
    pub fn run(&mut self, program: &Program, part: Part)
        ensures { self.new ≡ after part program.now self.old }
    {
        let mut machine = Machine::new(*self);
        for word in program.words(part) {
            machine.step(instruction(*word));
        }
        *self = machine.memory;
    }
}
