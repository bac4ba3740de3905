//! What a line is made of: numbers, outputs, words and lists. Each reader takes what is left of the tokens, and answers
//! what is left behind what it reads.
ghost use Rattle.std.specs.Prelude.{◌≡◌, ◌++◌, MatchResult};
ghost use Rattle.lines.specs.Parts.{ReadsNumber, ReadsOutput, ReadsWord, SaysInitial, ReadsVerb, ReadsEnd, ReadsList};
ghost use Rattle.lines.specs.Parts.{NoNumber, NoOutput, NoWord, NoVerb, NoEnd, NoList, Leaves};

use crate::shape::{Action, Number};
use conditions::rest::{Rest, small};
use faults::TextFault;
use text::token::{Letter, Token, TokenKind, Word};

pub(crate) fn number<'a>(input: Rest<'a>) -> Result<(Number, Rest<'a>), TextFault>
    ensures { MatchResult result (λ p. ReadsNumber input.entry p.0 p.1) (λ f. NoNumber input.entry f) }
{
    let (first, rest) = input.next()?;
    match first.kind {
        TokenKind::Digits(n) => {
            let place = first.place;
            let value = small(n, place)?;
            Ok((Number { value, place }, rest))
        }
        _ => Err(TextFault::Unexpected(first.place)),
    }
}

pub(crate) fn output<'a>(input: Rest<'a>) -> Result<(Number, Rest<'a>), TextFault>
    ensures { MatchResult result (λ p. ReadsOutput input.entry p.0 p.1) (λ f. NoOutput input.entry f) }
{
    let place = input.place();
    let (value, rest) = input.operand(Letter::Q)?;
    Ok((Number { value, place }, rest))
}

pub(crate) fn word<'a>(input: Rest<'a>, word: Word) -> Result<Rest<'a>, TextFault>
    ensures { MatchResult result (λ rest. ReadsWord word input.entry rest) (λ f. NoWord word input.entry f) }
{
    let other = TextFault::Unexpected(input.place());
    input.behind(TokenKind::Keyword(word)).ok_or(other)
}

/// Whether `initial` comes next, and what is left behind it.
pub(crate) fn initial<'a>(input: Rest<'a>) -> (bool, Rest<'a>)
    ensures { SaysInitial input.entry result.0 result.1 }
{
    match input.behind(TokenKind::Keyword(Word::Initial)) {
        Some(after) => (true, after),
        None => (false, input),
    }
}

/// `set` or `reset`.
pub(crate) fn verb<'a>(input: Rest<'a>) -> Result<(Action, Rest<'a>), TextFault>
    ensures { MatchResult result (λ p. ReadsVerb input.entry p.0 p.1) (λ f. NoVerb input.entry f) }
{
    match input.behind(TokenKind::Keyword(Word::Set)) {
        Some(after) => Ok((Action::Set, after)),
        None => Ok((Action::Reset, word(input, Word::Reset)?)),
    }
}

/// The end of the line.
pub(crate) fn finish<'a>(input: Rest<'a>) -> Result<Rest<'a>, TextFault>
    ensures { MatchResult result (λ rest. ReadsEnd input.entry rest) (λ f. NoEnd input.entry f) }
{
    match input.tokens {
        [] => Ok(input),
        [first, tokens @ ..] if first.kind == TokenKind::LineEnd => Ok(Rest { tokens, ..input }),
        [first, ..] => Err(TextFault::Unexpected(first.place)),
    }
}

/// The tokens that are used where `rest` is left.
#[tactic(auto, using(crate::proofs::Reading::used_split))]
pub(crate) fn used<'a>(input: Rest<'a>, rest: Rest<'a>) -> &'a [Token]
    requires { Leaves input rest }
    ensures { input.entry.tokens.now ≡ result.now ++ rest.entry.tokens.now }
{
    &input.tokens[..input.tokens.len() - rest.tokens.len()]
}

/// Numbers with `,` between them, and the word that ends them. Answers the tokens of the list, and what is left behind the
/// word.
pub(crate) fn list<'a>(input: Rest<'a>, until: Word) -> Result<(&'a [Token], Rest<'a>), TextFault>
    ensures { MatchResult result (λ p. ReadsList until input.entry p.0.now p.1) (λ f. NoList until input.entry f) }
{
    let (_, mut rest) = number(input)?;
    while let Some(after) = rest.behind(TokenKind::Comma) {
        let (_, left) = number(after)?;
        rest = left;
    }
    let part = used(input, rest);
    Ok((part, word(rest, until)?))
}
