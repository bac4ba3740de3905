//! The code file of a draft.
ghost use Rattle.std.specs.Prelude.{◌≡◌, List};
ghost use Rattle.lines.specs.Grammar.{Tree};
ghost use Rattle.translation.specs.Drafts.{Drafted};
ghost use Rattle.compile.specs.Compiled.{code_fault};
ghost use Rattle.compile.specs.Steps.{Files};

use codefile::write::{WriteFault, write};
use faults::CodeFault;
use translation::draft::Draft;

// Why a code file is not written, of a text that ends at `end`. No `From`: the text's end comes in besides.
fn code_fault(end: usize, fault: WriteFault) -> CodeFault
    ensures { result ≡ code_fault end fault }
{
    match fault {
        WriteFault::TooManyWords => CodeFault::TooManyWords(end),
        WriteFault::BufferTooShort(needed) => CodeFault::BufferTooShort(needed),
    }
}

// Writes the code file of the draft of a text that ends at `end`.
pub(crate) fn write_draft(draft: &Draft, end: usize, buffer: &mut [u8]) -> Result<usize, CodeFault>
    ensures { (lines : List Tree) → Drafted lines draft.now → Files lines end buffer.old buffer.new result }
{
    let contents = draft.contents().ok_or(CodeFault::TooManyWords(end))?;
    write(contents, buffer).map_err(|fault| code_fault(end, fault))
}
