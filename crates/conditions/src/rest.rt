//! What is left of a text while it is read.
ghost use Rattle.std.specs.Prelude.{◌≡◌, ◌≤◌, MatchOption, MatchResult};
ghost use Rattle.faults.specs.declared.TextFault.TheVariants.{NumberTooLarge};
ghost use Rattle.conditions.specs.Read.{Lacks, placed};

use faults::TextFault;
use text::token::{Letter, Token, TokenKind};

/// The tokens that are left, and the place where they run out.
#[derive(Clone, Copy, PartialEq, Eq, Debug)]
pub struct Rest<'a> {
    pub tokens: &'a [Token],
    pub end: usize,
}

impl<'a> Rest<'a> {
    ghost use Rattle.conditions.specs.Readers.{Takes, NoneLeft, Behind, TakesOperand, LacksOperand};

    /// Where the next token begins.
    #[inline(always)]
    pub fn place(self) -> usize
        ensures { result ≡ placed self.entry.tokens.now self.entry.end }
    {
        match self.tokens {
            [first, ..] => first.place,
            [] => self.end,
        }
    }

    /// The next token, and what is left behind it.
    #[inline(always)]
    pub fn next(self) -> Result<(Token, Rest<'a>), TextFault>
        ensures { MatchResult result (λ p. Takes self.entry p.0 p.1) (λ f. NoneLeft self.entry f) }
    {
        let end = self.end;
        let (first, tokens) = self.tokens.split_first().ok_or(TextFault::Unexpected(end))?;
        Ok((*first, Rest { tokens, end }))
    }

    /// What stands behind the sign, if the next token is one.
    #[inline(always)]
    pub fn behind(self, sign: TokenKind) -> Option<Rest<'a>>
        ensures { MatchOption result
            (Lacks sign self.entry.tokens.now)
            (λ rest. Behind sign self.entry rest) }
    {
        let (first, tokens) = self.tokens.split_first()?;
        if first.kind == sign {
            let end = self.end;
            Some(Rest { tokens, end })
        } else {
            None
        }
    }

    /// The number of an operand with this letter, and what is left behind it.
    #[inline(always)]
    pub fn operand(self, letter: Letter) -> Result<(u8, Rest<'a>), TextFault>
        ensures { MatchResult result
            (λ p. TakesOperand letter self.entry p.0 p.1)
            (λ f. LacksOperand letter self.entry f) }
    {
        let (first, rest) = self.next()?;
        match first.kind {
            TokenKind::Operand(l, n) if l == letter => Ok((small(n, first.place)?, rest)),
            _ => Err(TextFault::Unexpected(first.place)),
        }
    }
}

/// A number up to 63.
#[inline(always)]
pub fn small(n: u16, place: usize) -> Result<u8, TextFault>
    ensures { MatchResult result
        (λ m. (m ≡ n) × (n ≤ 63))
        (λ f. (f ≡ NumberTooLarge place) × (64 ≤ n)) }
{
    if n > 63 {
        return Err(TextFault::NumberTooLarge(place));
    }
    Ok(n as u8)
}
