//! The readers of a condition, one for each rule of the grammar. Each takes what is left of the tokens, puts the words
//! of what it reads behind those in `out`, and answers what is then left.
ghost use Rattle.std.specs.Prelude.{◌≡◌, IfErr, MatchResult};
ghost use Rattle.text.specs.declared.token.TokenKind.TheVariants.{Open};
ghost use Rattle.words.specs.Emitted.{kept_in};
ghost use Rattle.conditions.specs.Tree.{loaded};
ghost use Rattle.conditions.specs.Scan.{condition_of, fails};
ghost use Rattle.conditions.specs.Laws.{Wholly, Only, Nowhere, Stuck};
ghost use Rattle.conditions.specs.Read.{Lacks};
ghost use Rattle.conditions.specs.Readers.{ReadsAtom, ReadsPrimary, ReadsFactor, ReadsTerm, ReadsCondition};
ghost use Rattle.conditions.specs.Readers.{NoAtom, NoPrimary, NoFactor, NoTerm, NoCond, Grown};

use crate::depth::Depth;
use crate::rest::{Rest, small};
use crate::tree::Atom;
use faults::TextFault;
use text::token::{Letter, TokenKind};
use words::instruction::{Instruction, Operand};
use words::list::WordList;

// The load of the atom, or of its negation.
fn loading(negated: bool, atom: Atom) -> Instruction
    ensures { result ≡ loaded negated atom }
{
    let operand = match atom {
        Atom::Plain(Letter::I, n) => Operand::Input(n),
        Atom::Plain(Letter::Q, n) => Operand::Output(n),
        Atom::Plain(Letter::X, n) => Operand::Step(n),
        Atom::Rise(n) => Operand::Rise(n),
        Atom::Fall(n) => Operand::Fall(n),
        Atom::Always => Operand::Always,
    };
    if negated {
        Instruction::LoadNot(operand)
    } else {
        Instruction::Load(operand)
    }
}

/// Reads the condition that the tokens begin with, and puts its words behind those in `out`. Refused, `out` has the
/// words that it had before, and some words behind them; which, is open.
pub fn read_condition<'a>(input: Rest<'a>, out: &mut WordList) -> Result<Rest<'a>, TextFault>
    ensures reads { MatchResult result
        (λ rest. Wholly input.entry (kept_in out.old) rest (kept_in out.new))
        (λ f. condition_of input.entry.tokens.now input.entry.end ≡ fails f) }
    ensures only_tree { MatchResult result
        (λ rest. Only input.entry.tokens.now rest.tokens.now)
        (λ f. Nowhere input.entry.tokens.now) }
    ensures refused { IfErr result (λ f. Stuck input.entry.tokens.now input.entry.end f) }
    ensures leaves { IfErr result (λ f. Grown (kept_in out.old) (kept_in out.new)) }
{
    condition(input, Depth::outside(), out)
}

#[cycle(condition_factor_primary_term)]
#[tactic(auto, using(crate::proofs::Steps::or_more, crate::proofs::Pushing::grown_on))]
fn condition<'a>(input: Rest<'a>, depth: Depth, out: &mut WordList) -> Result<Rest<'a>, TextFault>
    ensures reads { MatchResult result
        (λ rest. ReadsCondition depth.brackets input.entry (kept_in out.old) rest (kept_in out.new))
        (λ f. NoCond depth.brackets input.entry f) }
    ensures leaves { IfErr result (λ f. Grown (kept_in out.old) (kept_in out.new)) }
{
    let mut rest = term(input, depth, out)?;
    while let Some(after) = rest.behind(TokenKind::Plus) {
        out.push(Instruction::OrOpen);
        rest = term(after, depth, out)?;
        out.push(Instruction::Close);
    }
    Ok(rest)
}

#[cycle(condition_factor_primary_term)]
#[tactic(auto, using(crate::proofs::Steps::term_started, crate::proofs::Steps::and_more, crate::proofs::Pushing::grown_on))]
fn term<'a>(input: Rest<'a>, depth: Depth, out: &mut WordList) -> Result<Rest<'a>, TextFault>
    ensures reads { MatchResult result
        (λ rest. ReadsTerm depth.brackets input.entry (kept_in out.old) rest (kept_in out.new))
        (λ f. NoTerm depth.brackets input.entry f) }
    ensures leaves { IfErr result (λ f. Grown (kept_in out.old) (kept_in out.new)) }
{
    let mut rest = factor(input, depth, out)?;
    while let Some(after) = rest.behind(TokenKind::Dot) {
        out.push(Instruction::AndOpen);
        rest = factor(after, depth, out)?;
        out.push(Instruction::Close);
    }
    Ok(rest)
}

#[inline(always)]
#[cycle(condition_factor_primary_term)]
fn factor<'a>(input: Rest<'a>, depth: Depth, out: &mut WordList) -> Result<Rest<'a>, TextFault>
    ensures reads { MatchResult result
        (λ rest. ReadsFactor depth.brackets input.entry (kept_in out.old) rest (kept_in out.new))
        (λ f. NoFactor depth.brackets input.entry f) }
    ensures leaves { IfErr result (λ f. Grown (kept_in out.old) (kept_in out.new)) }
{
    match input.behind(TokenKind::Bang) {
        Some(after) => primary(after, true, depth, out),
        None => primary(input, false, depth, out),
    }
}

#[cycle(condition_factor_primary_term)]
#[tactic(auto, using(crate::proofs::Pushing::grown_none))]
fn primary<'a>(
    input: Rest<'a>,
    negated: bool,
    depth: Depth,
    out: &mut WordList,
) -> Result<Rest<'a>, TextFault>
    ensures reads { MatchResult result
        (λ rest. ReadsPrimary negated depth.brackets input.entry (kept_in out.old) rest (kept_in out.new))
        (λ f. NoPrimary negated depth.brackets input.entry f) }
    ensures leaves { IfErr result (λ f. Grown (kept_in out.old) (kept_in out.new)) }
{
    let Some(after) = input.behind(TokenKind::Open) else {
        let (atom, rest) = operand(input)?;
        out.push(loading(negated, atom));
        return Ok(rest);
    };
    let within = depth.deeper(input.place())?;
    let inner = condition(after, within, out)?;
    let Some(rest) = inner.behind(TokenKind::Close) else {
        return Err(TextFault::Unexpected(inner.place()));
    };
    if negated {
        out.push(Instruction::Not);
    }
    Ok(rest)
}

// A primary that is no bracket.
#[inline(always)]
fn operand<'a>(input: Rest<'a>) -> Result<(Atom, Rest<'a>), TextFault>
    requires { Lacks Open input.tokens.now }
    ensures { MatchResult result (λ p. ReadsAtom input.entry p.0 p.1) (λ f. NoAtom input.entry f) }
{
    let (first, after) = input.next()?;
    match first.kind {
        TokenKind::Operand(letter, n) => Ok((Atom::Plain(letter, small(n, first.place)?), after)),
        TokenKind::Slash => {
            let (n, rest) = after.operand(Letter::I)?;
            Ok((Atom::Rise(n), rest))
        }
        TokenKind::Backslash => {
            let (n, rest) = after.operand(Letter::I)?;
            Ok((Atom::Fall(n), rest))
        }
        TokenKind::Digits(1) => Ok((Atom::Always, after)),
        _ => Err(TextFault::Unexpected(first.place)),
    }
}
