//! Reading whole files.
ghost use Rattle.std.specs.Prelude.{◌≤◌, IfOk, vec_len};

use crate::failure::Failure;
use std::fs::File;
use std::io;
use std::io::Read;

// A longer file is not read: no chart text and no code file comes near this length.
const LIMIT: usize = 268435456;

/// The bytes of a file.
pub fn read_file(rt: &HostRuntime, path: &str) -> Result<Vec<u8>, Failure>
    ensures { IfOk result (λ v. vec_len v ≤ 268435456) }
{
    let mut bytes = Vec::new(rt.alloc());
    let file = File::open(rt, path).map_err(Failure::Unreadable)?;
    file.take(LIMIT as u64 + 1)
        .read_to_end(&mut bytes)
        .map_err(Failure::Unreadable)?;
    if bytes.len() > LIMIT {
        let error = io::Error::from(io::ErrorKind::FileTooLarge);
        return Err(Failure::Unreadable(error));
    }
    Ok(bytes)
}
