//! `grafcet load FILE`: tests a code file and lists its words.
ghost use Rattle.std.specs.Prelude.{◌≡◌, false, is_ok, IfOk, Ok as Accepted};
ghost use Rattle.codefile.specs.File.{code_of};
ghost use Rattle.codefile.specs.Loads.{code_in};

use crate::failure::Failure;
use crate::files::read_file;
use codefile::program::Program;
use faults::Fault;
use showing::listing::print_program;

/// Prints the fault of a refused code file, and fails with it.
pub fn refuse_file(rt: &HostRuntime, fault: Fault) -> Result<(), Failure>
    ensures { is_ok result ≡ false }
{
    println!(rt; "refused {fault}")?;
    Err(Failure::Refused(fault))
}

/// The program of a code file. Of a refused one the fault is printed.
fn load_program(rt: &HostRuntime, file: &[u8]) -> Result<Program, Failure>
    ensures { IfOk result (λ p. code_of file.now ≡ Accepted (code_in p)) }
{
    let mut program = Program::new(rt.alloc())?;
    if let Err(e) = program.load(file) {
        refuse_file(rt, Fault::from(e))?;
    }
    Ok(program)
}

pub fn run(rt: &HostRuntime, path: &str) -> Result<(), Failure> {
    let file = read_file(rt, path)?;
    let program = load_program(rt, &file)?;
    print_program(rt, &program)?;
    Ok(())
}
