//! A code file whose head is accepted.
ghost use Rattle.std.specs.Prelude.{◌≡◌, length};
ghost use Rattle.codefile.specs.File.{le_at, Regular, checked};

use crate::directory::layout_of;
use crate::parts::{Parts, scan};
use faults::FileFault;
use words::instruction::Part;

/// The bytes of the file, and how many of them each part has.
#[derive(Clone, Copy, PartialEq, Eq, Debug)]
pub(crate) struct Headed<'a> {
    bytes: &'a [u8],
    lengths: Parts<usize>,
    ghost regular: { Regular (length bytes.now) lengths },
}

impl<'a> Headed<'a> {
    ghost use Rattle.std.specs.Prelude.{◌+◌, ◌*◌};
    ghost use Rattle.codefile.specs.Heads.{Reads, ArePartsOf};

    /// The file, or the fault of its head.
    pub(crate) fn read(bytes: &'a [u8]) -> Result<Headed<'a>, FileFault>
        ensures { Reads bytes.now result }
    {
        let lengths = layout_of(bytes)?;
        Ok(Headed { bytes, lengths })
    }

    /// The initial steps, eight bytes from byte 36 on.
    pub(crate) fn initial(&self) -> u64
        ensures { result ≡ le_at self.now.bytes.now 36 + le_at self.now.bytes.now 40 * 4294967296 }
    {
        let initial = self.bytes[36..].first_chunk().unwrap();
        u64::from_le_bytes(*initial)
    }

    /// The bytes of each part.
    pub(crate) fn parts(&self) -> Parts<&'a [u8]>
        ensures { ArePartsOf self.now result }
    {
        let (_, parts) = self.bytes.split_at(44);
        let (clear, parts) = parts.split_at(self.lengths.clear);
        let (enter, hold) = parts.split_at(self.lengths.enter);
        Parts { clear, enter, hold }
    }

    /// The first fault of the words: 18 or 19.
    pub(crate) fn check_words(&self) -> Result<(), FileFault>
        ensures { result ≡ checked self.now.bytes.now self.now.lengths }
    {
        let parts = self.parts();
        let enter_at = 44 + self.lengths.clear;
        let hold_at = enter_at + self.lengths.enter;
        let open = scan(Part::Clear, parts.clear, 44, false)?;
        let open = scan(Part::Enter, parts.enter, enter_at, open)?;
        let open = scan(Part::Hold, parts.hold, hold_at, open)?;
        if open {
            return Err(FileFault::Unbalanced(self.bytes.len()));
        }
        Ok(())
    }
}
