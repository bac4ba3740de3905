//! A table of steps and the outputs that they hold.
ghost use Rattle.std.specs.Prelude.{◌≡◌, ℕ, true, false, ◌&&◌, ◌||◌, IfOk, vec_len, ◌==◌, length, if◌then◌else◌};
ghost use Rattle.chart.specs.Numbers.{member};
ghost use Rattle.chart.specs.Sets.{holds, marked, is_marked, Empty};

use crate::set::NumberSet;
use std::alloc::{AllocError, Global};

/// A mark for each byte: for outputs, or for steps.
#[derive(Clone, Copy, PartialEq, Eq, Debug)]
pub struct Row {
    pub(crate) marks: [bool; 256],
}

impl Row {
    // A row with no mark.
    fn new() -> Row
        ensures { (q : ℕ) → is_marked result q ≡ false }
    {
        Row {
            marks: [false; 256],
        }
    }

    // Marks a number, and says whether it was marked.
    fn mark(&mut self, number: u8) -> bool
        ensures was_marked { result ≡ is_marked self.old number }
        ensures marks { (q : ℕ) → is_marked self.new q ≡ (q == number || is_marked self.old q) }
    {
        let before = self.marks[usize::from(number)];
        self.marks[usize::from(number)] = true;
        before
    }
}

// Takes the marks of these steps out of a table.
fn take_out(rows: &mut [Row], steps: &[u8])
    requires { length rows.old ≡ 256 }
    ensures rows { length rows.new ≡ 256 }
    ensures marks { (s q : ℕ) →
        marked rows.new s q ≡ (if member s steps.now then false else marked rows.old s q) }
{
    for step in steps {
        rows[usize::from(*step)] = Row::new();
    }
}

/// For each step the outputs that it holds.
// `steps` lists the steps that hold some, so that only their rows have to be emptied. `noted` has a mark for each of them, so
// that none is searched for.
#[derive(Drop)]
pub struct HeldTable {
    pub(crate) rows: Vec<Row>,
    steps: NumberSet,
    noted: Row,
    ghost whole: { vec_len rows ≡ 256 },
    ghost listed: { (s : ℕ) → is_marked noted s ≡ true → holds steps s ≡ true },
    ghost others: { (s q : ℕ) → holds steps s ≡ false → marked rows.items s q ≡ false },
}

impl HeldTable {
    /// A table with no mark.
    pub(crate) fn new(heap: Global) -> Result<HeldTable, AllocError>
        ensures marks { IfOk result (λ t. (s q : ℕ) → marked t.rows.items s q ≡ false) }
        ensures steps { IfOk result (λ t. Empty t.steps) }
    {
        let rows = vec![in heap; Row::new(); 256]?;
        let steps = NumberSet::new(heap)?;
        let noted = Row::new();
        Ok(HeldTable { rows, steps, noted })
    }

    /// Takes all marks out.
    pub(crate) fn clear(&mut self)
        ensures marks { (s q : ℕ) → marked self.new.rows.items s q ≡ false }
        ensures steps { Empty self.new.steps }
    {
        take_out(&mut self.rows, self.steps.numbers.as_slice());
        self.steps.clear();
        self.noted = Row::new();
    }

    // Notes that a step holds some output.
    fn note(&mut self, step: u8)
        ensures rows { self.new.rows ≡ self.old.rows }
        ensures noted { holds self.new.steps step ≡ true }
    {
        if !self.noted.mark(step) {
            self.steps.add(step);
        }
    }

    /// Marks that the step holds the output, and says whether it was marked.
    pub(crate) fn mark(&mut self, step: u8, output: u8) -> bool
        ensures was_marked { result ≡ marked self.old.rows.items step output }
        ensures marks { (s q : ℕ) →
            marked self.new.rows.items s q ≡ ((s == step && q == output) || marked self.old.rows.items s q) }
    {
        self.note(step);
        self.rows[usize::from(step)].mark(output)
    }
}
