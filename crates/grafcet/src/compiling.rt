//! `grafcet compile CHART OUT`: from a chart text to a code file.
ghost use Rattle.std.specs.Prelude.{◌≡◌, ℕ, ◌+◌, ◌*◌};

use crate::failure::Failure;
use crate::files::read_file;
use codefile::format::LONGEST_FILE;
use compile::compiler::Compiler;
use faults::Fault;
use std::alloc::AllocError;
use std::{fs, io};
use telling::cause::cause_of;
use telling::excerpt::excerpt;
use telling::position::{Position, position_at};

// The number of words in a code file of this length: 44 bytes stand before them, and each has four.
fn words_in(length: usize) -> usize
    ensures { (words : ℕ) → length ≡ 44 + 4 * words → result ≡ words }
{
    length.saturating_sub(44) / 4
}

/// The line of an accepted text.
pub fn print_compiled(rt: &HostRuntime, length: usize) -> io::Result<()> {
    let words = words_in(length);
    println!(rt; "compiled {length} bytes {words} words")
}

// Tells on standard error where a text is at fault.
fn report(rt: &HostRuntime, path: &str, text: &[u8], fault: Fault) -> Result<(), AllocError> {
    let Position { line, column } = position_at(text, fault.place());
    let cause = cause_of(fault);
    let shown = excerpt(rt.alloc(), text, fault.place())?;
    let _ = eprintln!(rt; "{path}:{line}:{column}: {cause}\n{shown}");
    Ok(())
}

/// Tells that a text is refused, and where it is at fault.
pub fn refuse(rt: &HostRuntime, path: &str, text: &[u8], fault: Fault) -> Result<(), Failure> {
    println!(rt; "refused {fault}")?;
    report(rt, path, text, fault)?;
    Err(Failure::Reported)
}

fn save(rt: &HostRuntime, path: &str, file: &[u8]) -> Result<(), Failure> {
    fs::write(rt, path, file).map_err(Failure::Unsaved)?;
    print_compiled(rt, file.len())?;
    Ok(())
}

fn compile_text(rt: &HostRuntime, chart: &str, out: &str, text: &[u8]) -> Result<(), Failure> {
    let mut buffer = vec![in rt.alloc(); 0u8; LONGEST_FILE]?;
    let mut compiler = Compiler::new(rt.alloc())?;
    let answer = compiler.compile(text, &mut buffer);
    drop(compiler);
    match answer {
        Ok(length) => save(rt, out, &buffer[..length]),
        Err(e) => refuse(rt, chart, text, Fault::from(e)),
    }
}

pub fn run(rt: &HostRuntime, chart: &str, out: &str) -> Result<(), Failure> {
    if chart == out {
        return Err(Failure::OverChart);
    }
    let text = read_file(rt, chart)?;
    compile_text(rt, chart, out, &text)
}
