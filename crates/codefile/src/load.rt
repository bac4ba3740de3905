//! Loading a code file into a program.
ghost use Rattle.std.specs.Prelude.{◌≡◌, ◌*◌, ◌≤◌, length, IfOk, OnOk, Ok};
ghost use Rattle.codefile.specs.File.{words_of, checked, contents};
ghost use Rattle.codefile.specs.First.{FirstFault};
ghost use Rattle.codefile.specs.Format.{longest_file};
ghost use Rattle.codefile.specs.Loads.{Loads, code_in, no_code};

use crate::directory::number;
use crate::headed::Headed;
use crate::program::Program;
use faults::FileFault;
use room::Reserved;
use std::alloc::{AllocError, Global};

// Fills a part with the words of its bytes, read by a slice pattern (docs/DECISIONS.md, Forms).
fn fill<const N: usize>(words: &mut Reserved<u32, N>, bytes: &[u8])
    requires { length bytes.now ≤ 4 * N }
    ensures { words.new ≡ words_of bytes.now }
{
    words.clear();
    let mut left = bytes;
    while let [a, b, c, d, rest @ ..] = left {
        words.push(number(*a, *b, *c, *d)).unwrap();
        left = rest;
    }
}

impl Program {
    /// An empty program, with room for the words of any code file.
    pub fn new(heap: Global) -> Result<Program, AllocError>
        ensures { IfOk result (λ p. code_in p ≡ no_code) }
    {
        Ok(Program {
            initial: 0,
            clear: Reserved::new(heap)?,
            enter: Reserved::new(heap)?,
            hold: Reserved::new(heap)?,
        })
    }

    // Takes the contents of a file that was checked.
    fn take(&mut self, file: Headed<'_>)
        requires { checked file.bytes.now file.lengths ≡ Ok tt }
        ensures { code_in self.new ≡ contents file.entry.bytes.now file.entry.lengths }
    {
        let parts = file.parts();
        fill(&mut self.clear, parts.clear);
        fill(&mut self.enter, parts.enter);
        fill(&mut self.hold, parts.hold);
        self.initial = file.initial();
    }

    /// Takes the program of a code file, or names the file's first fault and changes nothing. None that is longer than
    /// `LONGEST_FILE` is accepted.
    pub fn load(&mut self, bytes: &[u8]) -> Result<(), FileFault>
        ensures loads { Loads bytes.now self.old self.new result }
        ensures first_fault { FirstFault bytes.now result }
        ensures longest { OnOk result (length bytes.now ≤ longest_file) }
    {
        let file = Headed::read(bytes)?;
        file.check_words()?;
        self.take(file);
        Ok(())
    }
}
