//! The steps that a transition's tokens name, and the words that test the preceding ones.
ghost use Rattle.std.specs.Prelude.{◌≡◌, [], ◌∷◌, MatchOption};
ghost use Rattle.words.specs.Emitted.{kept_in, pushed};
ghost use Rattle.lines.specs.Scan.{noted, up_to63};
ghost use Rattle.lines.specs.Parts.{counted, numbers_in};
ghost use Rattle.lines.specs.Guards.{step_test, step_tests};

use crate::shape::Number;
use conditions::rest::small;
use text::token::{Letter, Token, TokenKind};
use words::instruction::{Instruction, Operand};
use words::list::WordList;

/// The number that a token of a list is.
pub fn number_of(token: Token) -> Option<Number>
    ensures { MatchOption result (counted token.place token.kind ≡ []) (λ n. counted token.place token.kind ≡ n ∷ []) }
{
    match token.kind {
        TokenKind::Digits(n) => up_to_63(n, token.place),
        _ => None,
    }
}

/// The step that a token of a condition names.
pub fn step_named(token: Token) -> Option<Number>
    ensures { MatchOption result (noted token.place token.kind ≡ []) (λ n. noted token.place token.kind ≡ n ∷ []) }
{
    match token.kind {
        TokenKind::Operand(Letter::X, n) => up_to_63(n, token.place),
        _ => None,
    }
}

fn up_to_63(n: u16, place: usize) -> Option<Number>
    ensures { MatchOption result (up_to63 place n ≡ []) (λ m. up_to63 place n ≡ m ∷ []) }
{
    let value = small(n, place).ok()?;
    Some(Number { value, place })
}

/// Emits the test that the steps of a list are active.
pub(crate) fn test_steps(list: &[Token], out: &mut WordList)
    ensures { kept_in out.new ≡ pushed (kept_in out.old) (step_tests (numbers_in list.now)) }
{
    let mut first = true;
    for t in list {
        if let Some(n) = number_of(*t) {
            out.push(step_test(first, n));
            first = false;
        }
    }
}

fn step_test(first: bool, n: Number) -> Instruction
    ensures { result ≡ step_test first n }
{
    let step = Operand::Step(n.value);
    if first {
        Instruction::Load(step)
    } else {
        Instruction::And(step)
    }
}
