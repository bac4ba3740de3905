//! What a program holds.
ghost use Rattle.std.specs.Prelude.{◌≡◌, true};
ghost use Rattle.words.specs.Brackets.{sound};
ghost use Rattle.codefile.specs.Loads.{code_in, words_in};

use crate::program::Program;
use words::instruction::Part;

impl Program {
    /// The frame of the initial steps.
    pub fn initial(&self) -> u64
        ensures { result ≡ (code_in self.now).initial }
    {
        self.initial
    }

    /// The words of a part, in the order of the file.
    pub fn words(&self, part: Part) -> &[u32]
        ensures words { result.now ≡ words_in part (code_in self.now) }
        ensures lawful_and_balanced { sound part 0 result.now ≡ true }
    {
        match part {
            Part::Clear => self.clear.as_slice(),
            Part::Enter => self.enter.as_slice(),
            Part::Hold => self.hold.as_slice(),
        }
    }
}
