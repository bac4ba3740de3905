//! What an instruction reads and writes of the memory.
ghost use Rattle.std.specs.Prelude.{◌≡◌, ◌<◌};
ghost use Rattle.words.specs.Words.{operand_number, target_number};
ghost use Rattle.machine.specs.Machine.{value, written as written_if, set as set_if, reset as reset_if};
ghost use Rattle.machine.specs.Machine.{with_cleared, with_held, altered};

use crate::bits::{has, with, without};
use crate::memory::Memory;
use words::instruction::{Operand, Target};

impl Memory {
    // Whether the operand is on.
    pub(crate) fn reads(&self, operand: Operand) -> bool
        requires { operand_number operand < 64 }
        ensures { result ≡ value operand self.now }
    {
        match operand {
            Operand::Input(n) => has(self.inputs, n),
            Operand::Step(n) => has(self.active, n),
            Operand::Output(n) => has(self.stored, n),
            Operand::Rise(n) => has(self.rises, n),
            Operand::Fall(n) => has(self.falls, n),
            Operand::Always => true,
            Operand::Cleared(n) => has(self.cleared, n),
            Operand::Before(n) => has(self.before, n),
        }
    }

    // Stores the result as whether a transition clears.
    pub(crate) fn store(&mut self, on: bool, number: u8)
        requires { number < 64 }
        ensures { self.new ≡ with_cleared (written_if on number self.old.cleared) self.old }
    {
        self.cleared = if on {
            with(self.cleared, number)
        } else {
            without(self.cleared, number)
        };
    }

    // Sets the target if the result is on.
    pub(crate) fn set(&mut self, on: bool, target: Target)
        requires { target_number target < 64 }
        ensures { self.new ≡ altered (set_if on) target self.old }
    {
        if on {
            match target {
                Target::Step(n) => self.active = with(self.active, n),
                Target::Output(n) => self.stored = with(self.stored, n),
            }
        }
    }

    // Resets the target if the result is on.
    pub(crate) fn reset(&mut self, on: bool, target: Target)
        requires { target_number target < 64 }
        ensures { self.new ≡ altered (reset_if on) target self.old }
    {
        if on {
            match target {
                Target::Step(n) => self.active = without(self.active, n),
                Target::Output(n) => self.stored = without(self.stored, n),
            }
        }
    }

    // Sets a held output if the result is on.
    pub(crate) fn hold(&mut self, on: bool, number: u8)
        requires { number < 64 }
        ensures { self.new ≡ with_held (set_if on number self.old.held) self.old }
    {
        if on {
            self.held = with(self.held, number);
        }
    }
}
