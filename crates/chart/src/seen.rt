//! What the lines before have declared and held, and the faults of a line behind them.
ghost use Rattle.std.specs.Prelude.{List, [], IfOk};
ghost use Rattle.lines.specs.declared.shape.Line.TheVariants.{Trans as OfTransition};
ghost use Rattle.lines.specs.Grammar.{Tree};
ghost use Rattle.lines.specs.Parts.{Shows};
ghost use Rattle.chart.specs.Seen.{Remembers, Unused, NotesLine};

use crate::findings::Findings;
use crate::set::NumberSet;
use crate::table::HeldTable;
use faults::ChartFault;
use lines::shape::{Line, Transition};
use lines::steps::{number_of, step_named};
use std::alloc::{AllocError, Global};

/// The numbers that the lines declare, what they hold, and the numbers of the list that is being read.
#[derive(Drop)]
pub struct Seen {
    pub(crate) steps: NumberSet,
    pub(crate) transitions: NumberSet,
    pub(crate) listed: NumberSet,
    pub(crate) held: HeldTable,
}

impl Seen {
    /// With room for any text's lines.
    pub(crate) fn new(heap: Global) -> Result<Seen, AllocError>
        ensures { IfOk result (λ s. Unused s) }
    {
        let steps = NumberSet::new(heap)?;
        let transitions = NumberSet::new(heap)?;
        let listed = NumberSet::new(heap)?;
        let held = HeldTable::new(heap)?;
        Ok(Seen {
            steps,
            transitions,
            listed,
            held,
        })
    }

    /// Forgets all lines.
    pub(crate) fn clear(&mut self)
        ensures { Remembers self.new [] }
    {
        self.steps.clear();
        self.transitions.clear();
        self.held.clear();
    }

    fn note_transition(&mut self, findings: &mut Findings, t: Transition)
        ensures { (tree : Tree) (before : List Tree) → Shows (OfTransition t.entry) tree → Remembers self.old before →
            NotesLine before tree findings.old findings.new self.new }
    {
        let n = t.number;
        findings.note_if(
            self.transitions.add(n.value),
            ChartFault::DeclaredTwice(n.place),
        );
        findings.note_uses(t.from, number_of);
        findings.note_uses(t.to, number_of);
        findings.note_uses(t.condition, step_named);
        findings.note_list(&mut self.listed, t.from);
        findings.note_list(&mut self.listed, t.to);
    }

    /// Notes the faults 7 to 10 of a line, and remembers it.
    pub(crate) fn note_line(&mut self, findings: &mut Findings, line: Line)
        ensures { (tree : Tree) (before : List Tree) → Shows line.entry tree → Remembers self.old before →
            NotesLine before tree findings.old findings.new self.new }
    {
        match line {
            Line::Empty => {}
            Line::Step { step, .. } => {
                findings.note_if(
                    self.steps.add(step.value),
                    ChartFault::DeclaredTwice(step.place),
                );
            }
            Line::Trans(t) => self.note_transition(findings, t),
            Line::Hold { step, output } => {
                findings.note_use(step);
                findings.note_if(
                    self.held.mark(step.value, output.value),
                    ChartFault::HeldTwice(output.place),
                );
            }
            Line::Enter { step, .. } => findings.note_use(step),
        }
    }
}
