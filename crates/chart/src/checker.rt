//! The checks over a whole text.
ghost use Rattle.std.specs.Prelude.{◌≡◌, IfOk};
ghost use Rattle.words.specs.Emitted.{kept_in};
ghost use Rattle.lines.specs.Next.{lines_left};
ghost use Rattle.chart.specs.Checks.{checked};
ghost use Rattle.chart.specs.First.{FirstFault};
ghost use Rattle.chart.specs.Fresh.{Fresh};
ghost use Rattle.chart.specs.Scratch.{EmitsTwice};

use crate::passes::{find_declared, find_fault};
use crate::seen::Seen;
use crate::set::NumberSet;
use conditions::rest::Rest;
use faults::ChartFault;
use std::alloc::{AllocError, Global};
use words::list::WordList;

/// Room for the checks of any text; what a check leaves in it does not matter to the next.
#[derive(Drop)]
pub struct Checker {
    declared: NumberSet,
    seen: Seen,
}

impl Checker {
    /// Room for the checks of any text.
    pub fn new(heap: Global) -> Result<Checker, AllocError>
        ensures { IfOk result (λ c. Fresh c) }
    {
        let declared = NumberSet::new(heap)?;
        let seen = Seen::new(heap)?;
        Ok(Checker { declared, seen })
    }

    /// Whether the lines of a text describe a chart, or the first fault. `words` is for scratch: each of the two passes puts
    /// the words that test the transitions behind those that it has; of lines with a fault 4 to 6, some words; which, is open.
    pub fn check(&mut self, text: Rest<'_>, words: &mut WordList) -> Result<(), ChartFault>
        ensures checked { result ≡ checked (lines_left text.entry) text.entry.end }
        ensures first_fault { FirstFault (lines_left text.entry) text.entry.end result }
        ensures scratch { EmitsTwice (lines_left text.entry) (kept_in words.old) (kept_in words.new) }
    {
        let initial = find_declared(&mut self.declared, text, words)?;
        match find_fault(&mut self.seen, &self.declared, text, words)? {
            Some(fault) => Err(fault),
            None if initial => Ok(()),
            None => Err(ChartFault::NoInitialStep(text.end)),
        }
    }
}
