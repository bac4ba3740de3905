//! The words of a program.
ghost use Rattle.std.specs.Prelude.{◌≡◌, ◌+◌, ◌*◌, ◌^◌, ◌<◌};

use codefile::program::Program;
use std::io;
use words::codec::decode;
use words::instruction::Part;

/// The line of an accepted file: the initial steps and the number of words of each part.
pub fn print_loaded(rt: &impl Print, program: &Program) -> io::Result<()> {
    let initial = program.initial();
    let clear = program.words(Part::Clear).len();
    let enter = program.words(Part::Enter).len();
    let hold = program.words(Part::Hold).len();
    println!(rt; "loaded {initial:016x} clear {clear} enter {enter} hold {hold}")
}

// The place of a word in its file, where its part starts at a place.
fn place_of(start: usize, index: usize) -> usize
    ensures { start + 4 * index < 2 ^ 64 → result ≡ start + 4 * index }
{
    start.saturating_add(index.saturating_mul(4))
}

// A part with its offset and length in the file, and a line for each word; answers where the part ends.
#[tactic(auto, using(crate::proofs::Lawful::has_instruction))]
fn print_part(rt: &impl Print, program: &Program, part: Part, start: usize) -> io::Result<usize> {
    let words = program.words(part);
    let end = place_of(start, words.len());
    let length = end.saturating_sub(start);
    println!(rt; "{part:<7}  offset {start:>5}  length {length:>5}")?;
    for (index, &word) in words.iter().enumerate() {
        let place = place_of(start, index);
        let instruction = decode(part, word).unwrap();
        println!(rt; "{place:>8}  {word:08x}  {instruction}")?;
    }
    Ok(end)
}

// The sections of the program's code file, and each word with its place and its meaning.
fn print_words(rt: &impl Print, program: &Program) -> io::Result<()> {
    println!(rt; "initial  offset    36  length     8")?;
    let enter = print_part(rt, program, Part::Clear, 44)?;
    let hold = print_part(rt, program, Part::Enter, enter)?;
    print_part(rt, program, Part::Hold, hold)?;
    Ok(())
}

/// The line of an accepted file, its sections and its words.
pub fn print_program(rt: &impl Print, program: &Program) -> io::Result<()> {
    print_loaded(rt, program)?;
    print_words(rt, program)
}
