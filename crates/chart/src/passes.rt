//! The two passes over the lines of a text: first what they declare, then their faults.
ghost use Rattle.std.specs.Prelude.{◌≡◌, List, [], ◌∷◌, ◌++◌, Err as Refused, MatchResult};
ghost use Rattle.words.specs.Emitted.{kept_in};
ghost use Rattle.lines.specs.declared.shape.Number.{Number as TheNumber};
ghost use Rattle.lines.specs.Grammar.{Tree};
ghost use Rattle.lines.specs.Parts.{Shows};
ghost use Rattle.lines.specs.Next.{lines_left};
ghost use Rattle.chart.specs.Said.{steps_of, is_initial, all};
ghost use Rattle.chart.specs.Checks.{chart_faults, first_of, on_lines};
ghost use Rattle.chart.specs.Sets.{Knows};
ghost use Rattle.chart.specs.Seen.{Declared};
ghost use Rattle.chart.specs.Scratch.{Emits};

use crate::findings::Findings;
use crate::seen::Seen;
use crate::set::NumberSet;
use conditions::rest::Rest;
use faults::{ChartFault, TextFault};
use lines::line::next_line;
use lines::shape::Line;
use words::list::WordList;

// Counts the step of a line as declared, and says whether it is initial.
fn declare(declared: &mut NumberSet, line: Line) -> bool
    ensures { (tree : Tree) (lines : List Tree) → Shows line.entry tree → Knows declared.old (all steps_of lines) →
        (result ≡ is_initial tree) × Knows declared.new (all steps_of (lines ++ tree ∷ [])) }
{
    match line {
        Line::Step { step, initial } => {
            declared.add(step.value);
            initial
        }
        _ => false,
    }
}

// Finds the steps that the lines declare, and whether one is initial.
pub(crate) fn find_declared(
    declared: &mut NumberSet,
    text: Rest<'_>,
    words: &mut WordList,
) -> Result<bool, TextFault>
    ensures declared { MatchResult result
        (λ initial. Declared (lines_left text.entry) initial declared.new)
        (λ f. lines_left text.entry ≡ Refused f) }
    ensures emits { Emits (lines_left text.entry) (kept_in words.old) (kept_in words.new) }
{
    declared.clear();
    let mut any_initial = false;
    let mut rest = text;
    while let Some((line, after)) = next_line(rest, words)? {
        any_initial |= declare(declared, line);
        rest = after;
    }
    Ok(any_initial)
}

// Finds the first of the faults 7 to 10.
pub(crate) fn find_fault(
    seen: &mut Seen,
    declared: &NumberSet,
    text: Rest<'_>,
    words: &mut WordList,
) -> Result<Option<ChartFault>, TextFault>
    ensures first { (ns : List TheNumber) → Knows declared.now ns →
        result ≡ on_lines (λ ls. first_of (chart_faults ns [] ls)) (lines_left text.entry) }
    ensures emits { Emits (lines_left text.entry) (kept_in words.old) (kept_in words.new) }
{
    seen.clear();
    let mut findings = Findings {
        first: None,
        declared,
    };
    let mut rest = text;
    while let Some((line, after)) = next_line(rest, words)? {
        seen.note_line(&mut findings, line);
        rest = after;
    }
    Ok(findings.first)
}
