//! What can be damaged, and the copies.
ghost use Rattle.std.specs.Prelude.{◌≡◌, IfOk, OnErr};
ghost use Rattle.damages.specs.Damages.{damaged_by, Tried};

use codefile::program::Program;
use faults::FileFault;
use std::alloc::{AllocError, Global};
use std::fmt;

#[derive(Clone, Copy, PartialEq, Eq, Debug)]
pub enum Damage {
    /// Only the first bytes are left.
    Cut(usize),
    /// The byte at a place has another value.
    Byte(usize, u8),
}

impl fmt::Display for Damage {
    fn fmt<W: fmt::Write>(&self, f: &mut fmt::Formatter<W>) -> fmt::Result {
        match *self {
            Damage::Cut(length) => write!(f, "cut to {length} bytes"),
            Damage::Byte(place, value) => write!(f, "byte {place} changed to {value:02x} hex"),
        }
    }
}

/// A copy of the file with the damage.
pub fn damaged(heap: Global, file: &[u8], damage: Damage) -> Result<Vec<u8>, AllocError>
    ensures { IfOk result (λ v. v.items ≡ damaged_by damage file.now) }
{
    let mut copy = Vec::from_slice(heap, file)?;
    match damage {
        Damage::Cut(length) => copy.truncate(length),
        Damage::Byte(place, value) => {
            if place < copy.len() {
                copy[place] = value;
            }
        }
    }
    Ok(copy)
}

/// Loads a damaged copy of the file, and answers its fault.
pub fn try_damaged(
    heap: Global,
    program: &mut Program,
    file: &[u8],
    damage: Damage,
) -> Result<Option<FileFault>, AllocError>
    ensures tried { IfOk result (λ o. Tried (damaged_by damage file.now) program.old program.new o) }
    ensures no_memory { OnErr result (program.new ≡ program.old) }
{
    let copy = damaged(heap, file, damage)?;
    Ok(program.load(&copy).err())
}
