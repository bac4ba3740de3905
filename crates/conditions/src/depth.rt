//! How deep a reader is in brackets.
ghost use Rattle.std.specs.Prelude.{◌≡◌, ◌+◌, ◌≤◌, MatchResult};
ghost use Rattle.faults.specs.declared.TextFault.TheVariants.{EighthBracket};

use faults::TextFault;

/// How many brackets are open: at most seven.
#[derive(Clone, Copy, PartialEq, Eq, Debug)]
pub struct Depth {
    pub(crate) brackets: usize,
    ghost few: { brackets ≤ 7 },
}

impl Depth {
    /// Outside of all brackets.
    pub(crate) fn outside() -> Depth
        ensures { result.brackets ≡ 0 }
    {
        Depth { brackets: 0 }
    }

    /// Inside one more bracket, which begins at `place`.
    pub(crate) fn deeper(self, place: usize) -> Result<Depth, TextFault>
        ensures { MatchResult result
            (λ d. d.brackets ≡ self.brackets + 1)
            (λ f. (f ≡ EighthBracket place) × (7 ≤ self.brackets)) }
    {
        if self.brackets >= 7 {
            return Err(TextFault::EighthBracket(place));
        }
        let brackets = self.brackets + 1;
        Ok(Depth { brackets })
    }
}
