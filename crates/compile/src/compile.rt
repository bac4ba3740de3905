//! From a chart text to its code file.
ghost use Rattle.std.specs.Prelude.{◌≡◌, ◌≤◌, length, IfOk};
ghost use Rattle.compile.specs.Compiled.{compiled, answer_of, buffer_with};
ghost use Rattle.compile.specs.Laws.{TextLaw, ChartLaw, LoadsAs, Built, RoomSuffices};

use crate::compiler::Compiler;
use crate::file::write_draft;
use codefile::program::Program;
use faults::CodeFault;

impl Compiler {
    /// Writes the code file of a chart text over the first bytes of the buffer and says how many they are, with all others
    /// as they were; or names the first fault, with all bytes as they were.
    pub fn compile(&mut self, text: &[u8], buffer: &mut [u8]) -> Result<usize, CodeFault>
        ensures answer { result ≡ answer_of (compiled text.now (length buffer.old)) }
        ensures buffer { buffer.new ≡ buffer_with (compiled text.now (length buffer.old)) buffer.old }
        ensures text { TextLaw text.now }
        ensures chart { ChartLaw text.now }
        ensures loads_back { IfOk result (λ n. LoadsAs text.now n buffer.new) }
        ensures within { IfOk result (λ n. n ≤ length buffer.old) }
        ensures room_suffices { RoomSuffices text.now }
    {
        self.check(text)?;
        write_draft(&self.draft, text.len(), buffer)
    }

    /// Compiles a chart text and loads its code file: what compile writes, load accepts. Refused, buffer and program are as
    /// they were.
    pub fn build(
        &mut self,
        text: &[u8],
        buffer: &mut [u8],
        program: &mut Program,
    ) -> Result<usize, CodeFault>
        ensures answer { result ≡ answer_of (compiled text.now (length buffer.old)) }
        ensures buffer { buffer.new ≡ buffer_with (compiled text.now (length buffer.old)) buffer.old }
        ensures program { Built text.now program.old program.new result }
        ensures within { IfOk result (λ n. n ≤ length buffer.old) }
        ensures room_suffices { RoomSuffices text.now }
    {
        let length = self.compile(text, buffer)?;
        program.load(&buffer[..length]).unwrap();
        Ok(length)
    }
}
