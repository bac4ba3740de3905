//! The parts of a code file, judged word by word.
ghost use Rattle.std.specs.Prelude.{◌≡◌, ◌+◌, ◌^◌, ◌<◌, length, Some, None, if◌then◌else◌};
ghost use Rattle.words.specs.Words.{word_of};
ghost use Rattle.words.specs.Brackets.{spoils, after};
ghost use Rattle.codefile.specs.Parts.{scanned};
ghost use Rattle.codefile.specs.File.{words_of};

use crate::directory::number;
use faults::FileFault;
use words::codec::decode;
use words::instruction::{Instruction, Part};

/// One thing for each part.
#[derive(Clone, Copy, PartialEq, Eq, Debug)]
pub struct Parts<T> {
    pub clear: T,
    pub enter: T,
    pub hold: T,
}

// How many brackets are open behind an instruction, so many being open before it, or None where it spoils them.
fn depth_after(depth: usize, instruction: Instruction) -> Option<usize>
    ensures { result
        ≡ (if spoils depth (word_of instruction) then None else Some (after depth (word_of instruction))) }
{
    match instruction {
        Instruction::AndOpen | Instruction::OrOpen => (depth < 17).then(|| depth + 1),
        Instruction::Close => depth.checked_sub(1),
        _ => Some(depth),
    }
}

// The first fault of a part that starts at a place, or whether a bracket is open at its end. The words are read by a
// slice pattern, as the directory is (docs/DECISIONS.md, Forms).
pub(crate) fn scan(
    part: Part,
    bytes: &[u8],
    start: usize,
    open_before: bool,
) -> Result<bool, FileFault>
    requires { start + length bytes.now < 2 ^ 64 }
    ensures { result ≡ scanned part start open_before 0 (words_of bytes.now) }
{
    let mut left = bytes;
    let mut owed = open_before;
    let mut depth: usize = 0;
    while let [a, b, c, d, rest @ ..] = left {
        let place = start + (bytes.len() - left.len());
        let word = number(*a, *b, *c, *d);
        let Some(instruction) = decode(part, word) else {
            return Err(FileFault::UnlawfulWord(place));
        };
        depth = match depth_after(depth, instruction) {
            Some(after) if !owed => after,
            _ => return Err(FileFault::Unbalanced(place)),
        };
        owed = false;
        left = rest;
    }
    Ok(owed || depth > 0)
}
