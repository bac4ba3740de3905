//! Verdicts as text.
ghost use Rattle.std.specs.Prelude.{Some};
ghost use Rattle.verdict.specs.Shown.{verdict_text};

use crate::outcome::Verdict;
use std::fmt;

impl fmt::Display for Verdict {
    ghost output = { λ v. Some (verdict_text v) };

    fn fmt<W: fmt::Write>(&self, f: &mut fmt::Formatter<W>) -> fmt::Result {
        match *self {
            Verdict::Stable(m) => write!(f, "stable {m}"),
            Verdict::Circling(j, k) => write!(f, "circling {j} {k}"),
            Verdict::Overlong => f.pad("overlong"),
        }
    }
}
