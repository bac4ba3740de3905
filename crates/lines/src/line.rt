//! One line.
ghost use Rattle.std.specs.Prelude.{◌≡◌, [], IfErr, MatchResult};
ghost use Rattle.words.specs.Emitted.{kept_in};
ghost use Rattle.conditions.specs.Readers.{Grown};
ghost use Rattle.lines.specs.Scan.{line_of, fails, start, stepping, transing, holding, entering};
ghost use Rattle.lines.specs.Laws.{Only, Nowhere, Stuck};
ghost use Rattle.lines.specs.Parts.{ReadsLine, LineFrom, TransFrom, QuietFrom, NoLineFrom, ReadsGuard, NoGuard};
ghost use Rattle.lines.specs.Next.{NextLine};

use crate::parts::{finish, initial, list, number, output, used, verb, word};
use crate::shape::{Line, Number, Transition};
use crate::steps::test_steps;
use conditions::condition::read_condition;
use conditions::rest::Rest;
use faults::TextFault;
use text::token::{Token, TokenKind, Word};
use words::instruction::Instruction;
use words::list::WordList;

/// The line that the tokens begin with, and what is left behind its end. The words that test a transition are put behind
/// those in `guards`. Refused, `guards` has the words that it had before, and some words behind them; which, is open.
#[inline(always)]
pub fn read_line<'a>(
    input: Rest<'a>,
    guards: &mut WordList,
) -> Result<(Line<'a>, Rest<'a>), TextFault>
    ensures reads { MatchResult result
        (λ p. ReadsLine start input.entry p.0 p.1 (kept_in guards.old) (kept_in guards.new))
        (λ f. line_of input.entry.tokens.now input.entry.end ≡ fails f) }
    ensures only_tree { MatchResult result
        (λ p. Only input.entry.tokens.now p.1.tokens.now)
        (λ f. Nowhere input.entry.tokens.now) }
    ensures refused { IfErr result (λ f. Stuck input.entry.tokens.now input.entry.end f) }
    ensures leaves { IfErr result (λ f. Grown (kept_in guards.old) (kept_in guards.new)) }
{
    read(input, guards)
}

/// The next line of a text and what is left behind it, or None where no token is left. What `guards` then has, `read_line`
/// says.
#[inline(always)]
pub fn next_line<'a>(
    input: Rest<'a>,
    guards: &mut WordList,
) -> Result<Option<(Line<'a>, Rest<'a>)>, TextFault>
    ensures { NextLine input.entry (kept_in guards.old) (kept_in guards.new) result }
{
    if input.tokens.is_empty() {
        return Ok(None);
    }
    let (line, rest) = read_line(input, guards)?;
    Ok(Some((line, rest)))
}

#[inline(always)]
#[tactic(auto, using(conditions::proofs::Pushing::grown_none))]
fn read<'a>(input: Rest<'a>, guards: &mut WordList) -> Result<(Line<'a>, Rest<'a>), TextFault>
    ensures reads { MatchResult result
        (λ p. LineFrom [] start input.entry p.0 p.1 (kept_in guards.old) (kept_in guards.new))
        (λ f. NoLineFrom start input.entry f) }
    ensures leaves { IfErr result (λ f. Grown (kept_in guards.old) (kept_in guards.new)) }
{
    if input.tokens.is_empty() {
        return Ok((Line::Empty, input));
    }
    let (first, rest) = input.next()?;
    match first.kind {
        TokenKind::LineEnd => Ok((Line::Empty, rest)),
        TokenKind::Keyword(Word::Step) => step(rest),
        TokenKind::Keyword(Word::Trans) => trans(rest, guards),
        TokenKind::Keyword(Word::Hold) => hold(rest),
        TokenKind::Keyword(Word::Enter) => enter(rest),
        _ => Err(TextFault::Unexpected(first.place)),
    }
}

fn step<'a>(input: Rest<'a>) -> Result<(Line<'a>, Rest<'a>), TextFault>
    ensures { MatchResult result
        (λ p. QuietFrom stepping input.entry p.0 p.1)
        (λ f. NoLineFrom stepping input.entry f) }
{
    let (step, rest) = number(input)?;
    let (initial, after) = initial(rest);
    let left = finish(after)?;
    Ok((Line::Step { step, initial }, left))
}

fn hold<'a>(input: Rest<'a>) -> Result<(Line<'a>, Rest<'a>), TextFault>
    ensures { MatchResult result (λ p. QuietFrom holding input.entry p.0 p.1) (λ f. NoLineFrom holding input.entry f) }
{
    let (step, rest) = number(input)?;
    let (output, after) = output(rest)?;
    let left = finish(after)?;
    Ok((Line::Hold { step, output }, left))
}

fn enter<'a>(input: Rest<'a>) -> Result<(Line<'a>, Rest<'a>), TextFault>
    ensures { MatchResult result
        (λ p. QuietFrom entering input.entry p.0 p.1)
        (λ f. NoLineFrom entering input.entry f) }
{
    let (step, rest) = number(input)?;
    let (action, after) = verb(rest)?;
    let (output, behind_output) = output(after)?;
    let left = finish(behind_output)?;
    Ok((
        Line::Enter {
            step,
            action,
            output,
        },
        left,
    ))
}

#[tactic(auto, using(conditions::proofs::Pushing::grown_none, crate::proofs::Reading::grown_behind))]
fn trans<'a>(input: Rest<'a>, guards: &mut WordList) -> Result<(Line<'a>, Rest<'a>), TextFault>
    ensures reads { MatchResult result
        (λ p. TransFrom input.entry p.0 p.1 (kept_in guards.old) (kept_in guards.new))
        (λ f. NoLineFrom transing input.entry f) }
    ensures leaves { IfErr result (λ f. Grown (kept_in guards.old) (kept_in guards.new)) }
{
    let (number, behind_number) = number(input)?;
    let first = word(behind_number, Word::From)?;
    let (from, second) = list(first, Word::To)?;
    let (to, third) = list(second, Word::When)?;
    test_steps(from, guards);
    let (condition, rest) = guard(third, number, guards)?;
    let left = finish(rest)?;
    Ok((
        Line::Trans(Transition {
            number,
            from,
            to,
            condition,
        }),
        left,
    ))
}

// The condition of a transition: its tokens, and what is left behind them. Its words in brackets, and the store of its value,
// are put behind those in `guards`.
#[tactic(auto, using(crate::proofs::Reading::guard_read, crate::proofs::Reading::grown_behind))]
fn guard<'a>(
    input: Rest<'a>,
    number: Number,
    guards: &mut WordList,
) -> Result<(&'a [Token], Rest<'a>), TextFault>
    ensures reads { MatchResult result
        (λ p. ReadsGuard number.value input.entry p.0.now p.1 (kept_in guards.old) (kept_in guards.new))
        (λ f. NoGuard input.entry f) }
    ensures leaves { IfErr result (λ f. Grown (kept_in guards.old) (kept_in guards.new)) }
{
    guards.push(Instruction::AndOpen);
    let rest = read_condition(input, guards)?;
    guards.push(Instruction::Close);
    guards.push(Instruction::Store(number.value));
    Ok((used(input, rest), rest))
}
