//! The faults of the lines: of those met so far the first is kept.
ghost use Rattle.std.specs.Prelude.{◌≡◌, List, [], ◌∷◌, if◌then◌else◌};
ghost use Rattle.std.specs.List.{flat_map};
ghost use Rattle.text.specs.declared.token.Token.{Token as TheToken};
ghost use Rattle.lines.specs.declared.shape.Number.{Number as TheNumber};
ghost use Rattle.lines.specs.Parts.{numbers_in};
ghost use Rattle.chart.specs.Checks.{precedes, keep, listings, repetitions};
ghost use Rattle.chart.specs.Sets.{Knows};
ghost use Rattle.chart.specs.Findings.{Named, noting, uses_by};

use crate::set::NumberSet;
use faults::ChartFault;
use lines::shape::Number;
use lines::steps::number_of;
use text::token::Token;

/// The first of the faults met so far, and the steps that the lines declare.
#[derive(Drop)]
pub struct Findings<'a> {
    pub(crate) first: Option<ChartFault>,
    pub(crate) declared: &'a NumberSet,
}

// Whether a fault stands before another, or at its place with a smaller number.
fn is_before(fault: ChartFault, other: ChartFault) -> bool
    ensures { result ≡ precedes fault other }
{
    (fault.place(), fault.number()) < (other.place(), other.number())
}

impl Findings<'_> {
    // Keeps the earlier of the fault and the one that is kept.
    fn note(&mut self, fault: ChartFault)
        ensures { self.new ≡ record self.old { first = keep self.old.first fault } }
    {
        match self.first {
            Some(kept) if !is_before(fault, kept) => {}
            _ => self.first = Some(fault),
        }
    }

    /// Notes the fault if it is one.
    pub(crate) fn note_if(&mut self, is_fault: bool, fault: ChartFault)
        ensures { self.new ≡ noting self.old (if is_fault then fault ∷ [] else []) }
    {
        if is_fault {
            self.note(fault);
        }
    }

    /// 8: notes a step that is not declared.
    pub(crate) fn note_use(&mut self, n: Number)
        ensures { self.new ≡ noting self.old (uses_by self.old.declared.now (n ∷ [])) }
    {
        self.note_if(
            !self.declared.has(n.value),
            ChartFault::UndeclaredStep(n.place),
        );
    }

    /// 8: notes the steps that are named by tokens and are not declared.
    pub(crate) fn note_uses<F: Fn(Token) -> Option<Number>>(&mut self, tokens: &[Token], named: F)
        requires { F.IsAlwaysCallable named }
        ensures { (numbers : TheToken → List TheNumber) → Named (F.post named) numbers →
            self.new ≡ noting self.old (uses_by self.old.declared.now (flat_map numbers tokens.now)) }
    {
        for t in tokens {
            if let Some(n) = named(*t) {
                self.note_use(n);
            }
        }
    }

    /// 9: notes the steps of a list that stand in it already; `listed` is for those met so far.
    pub(crate) fn note_list(&mut self, listed: &mut NumberSet, list: &[Token])
        ensures { self.new ≡ noting self.old (repetitions (numbers_in list.now)) }
    {
        listed.clear();
        for t in list {
            if let Some(n) = number_of(*t) {
                self.note_listing(listed, n);
            }
        }
    }

    // 9: notes a number that stands in the list already, and counts it as listed.
    fn note_listing(&mut self, listed: &mut NumberSet, n: Number)
        ensures faults { (ns : List TheNumber) → Knows listed.old ns →
            self.new ≡ noting self.old (listings ns (n ∷ [])) }
        ensures counts { (ns : List TheNumber) → Knows listed.old ns → Knows listed.new (n ∷ ns) }
    {
        self.note_if(listed.add(n.value), ChartFault::ListedTwice(n.place));
    }
}
