//! Cutting a text into tokens, see docs/chart-text.md.
ghost use Rattle.std.specs.Prelude.{◌≡◌, ◌+◌, ◌*◌, ◌^◌, ◌<◌, ◌≤◌, [], length, drop, IfOk, IfSome};
ghost use Rattle.text.specs.Lex.{letter_of, sign_of, numeral, number, keyword, operand, lexeme, piece, Within};
ghost use Rattle.text.specs.Runs.{digits, letters};
ghost use Rattle.text.specs.Spelled.{Spelled, Alone, Rising, end_of};
ghost use Rattle.text.specs.Lex.{list_in, lex, tokens_of, answer};

use crate::token::{Letter, Token, TokenKind};
use crate::tokens::{LONGEST_TEXT, Tokens};
use crate::word::word_of;
use faults::TextFault;
use room::Reserved;
use std::alloc::{AllocError, Global};

// The most digits that a number may have.
const MOST_DIGITS: usize = 4;

// The letter of an operand.
#[inline(always)]
fn letter(b: u8) -> Option<Letter>
    ensures { result ≡ letter_of b }
{
    match char::from(b) {
        'I' => Some(Letter::I),
        'Q' => Some(Letter::Q),
        'X' => Some(Letter::X),
        _ => None,
    }
}

// The token that is a byte of its own.
#[inline(always)]
fn sign(b: u8) -> Option<TokenKind>
    ensures { result ≡ sign_of b }
{
    match char::from(b) {
        '\n' => Some(TokenKind::LineEnd),
        ',' => Some(TokenKind::Comma),
        '.' => Some(TokenKind::Dot),
        '+' => Some(TokenKind::Plus),
        '!' => Some(TokenKind::Bang),
        '(' => Some(TokenKind::Open),
        ')' => Some(TokenKind::Close),
        '/' => Some(TokenKind::Slash),
        '\\' => Some(TokenKind::Backslash),
        _ => None,
    }
}

// How many digits the bytes begin with. A function of its own, because a proof knows the count only by this contract.
#[inline(always)]
fn digit_run(bytes: &[u8]) -> usize
    ensures { result ≡ digits bytes.now }
{
    bytes.iter().take_while(|b| b.is_ascii_digit()).count()
}

// How many letters a to z the bytes begin with.
#[inline(always)]
fn letter_run(bytes: &[u8]) -> usize
    ensures { result ≡ letters bytes.now }
{
    bytes.iter().take_while(|b| b.is_ascii_lowercase()).count()
}

// The value of the digits that the bytes begin with, and how many they are, if they are not too many.
#[inline(always)]
fn numeral(bytes: &[u8]) -> Option<(u16, usize)>
    ensures { result ≡ numeral bytes.now }
{
    let n = digit_run(bytes);
    if n > MOST_DIGITS {
        return None;
    }
    let mut value: u16 = 0;
    for b in &bytes[..n] {
        value = value * 10 + u16::from(*b - b'0');
    }
    Some((value, n))
}

// The bytes that are left of a text, and the place where they begin.
#[derive(Clone, Copy, PartialEq, Eq, Debug)]
struct Rest<'a> {
    bytes: &'a [u8],
    place: usize,
}

impl Rest<'_> {
    // The number that the bytes begin with, and its length.
    #[inline(always)]
    fn number(&self) -> Result<(TokenKind, usize), TextFault>
        requires { 0 < digits self.now.bytes.now }
        ensures is { result ≡ number self.now.place self.now.bytes.now }
        ensures within { IfOk result (λ t. Within t.1 (length self.now.bytes.now)) }
    {
        let (value, n) = numeral(self.bytes).ok_or(TextFault::TooManyDigits(self.place))?;
        Ok((TokenKind::Digits(value), n))
    }

    // The word that the bytes begin with, and its length.
    #[inline(always)]
    fn keyword(&self) -> Result<(TokenKind, usize), TextFault>
        requires { 0 < letters self.now.bytes.now }
        ensures is { result ≡ keyword self.now.place self.now.bytes.now }
        ensures within { IfOk result (λ t. Within t.1 (length self.now.bytes.now)) }
    {
        let n = letter_run(self.bytes);
        let word = word_of(&self.bytes[..n]).ok_or(TextFault::NoToken(self.place))?;
        Ok((TokenKind::Keyword(word), n))
    }

    // The operand of this letter, which is the first of the bytes, and its length.
    #[inline(always)]
    fn operand(&self, letter: Letter) -> Result<(TokenKind, usize), TextFault>
        requires { 0 < length self.now.bytes.now }
        ensures is { result ≡ operand letter self.now.place (drop 1 self.now.bytes.now) }
        ensures within { IfOk result (λ t. Within t.1 (length self.now.bytes.now)) }
    {
        let too_many = TextFault::TooManyDigits(self.place);
        match numeral(&self.bytes[1..]).ok_or(too_many)? {
            (_, 0) => Err(TextFault::NoToken(self.place)),
            (value, n) => Ok((TokenKind::Operand(letter, value), n + 1)),
        }
    }

    // The token that the bytes begin with, and its length.
    #[inline(always)]
    fn lexeme(&self) -> Result<(TokenKind, usize), TextFault>
        ensures is { result ≡ lexeme self.now.place self.now.bytes.now }
        ensures within { IfOk result (λ t. Within t.1 (length self.now.bytes.now)) }
    {
        let fault = TextFault::NoToken(self.place);
        let (first, _) = self.bytes.split_first().ok_or(fault)?;
        match *first {
            b'0'..=b'9' => self.number(),
            b'a'..=b'z' => self.keyword(),
            b => match sign(b) {
                Some(kind) => Ok((kind, 1)),
                None => self.operand(letter(b).ok_or(fault)?),
            },
        }
    }

    // What the bytes begin with: None for a blank, or a token with its length.
    #[inline(always)]
    fn piece(&self) -> Result<Option<(TokenKind, usize)>, TextFault>
        ensures is { result ≡ piece self.now.place self.now.bytes.now }
        ensures within { IfOk result (λ p. IfSome p (λ t. Within t.1 (length self.now.bytes.now))) }
    {
        match self.bytes {
            [b' ', ..] => Ok(None),
            _ => Ok(Some(self.lexeme()?)),
        }
    }

    // Moves on, past `n` bytes.
    #[inline(always)]
    fn skip(&mut self, n: usize)
        requires bytes { n ≤ length self.old.bytes.now }
        requires place { self.old.place + n < 2 ^ 64 }
        ensures bytes { self.new.bytes.now ≡ drop n self.old.bytes.now }
        ensures place { self.new.place ≡ self.old.place + n }
    {
        self.bytes = &self.bytes[n..];
        self.place += n;
    }
}

// Puts the tokens of the text behind each other, up to its first fault.
fn fill(list: &mut Reserved<Token, LONGEST_TEXT>, text: &[u8]) -> Result<(), TextFault>
    requires empty { list.old ≡ [] }
    requires room { length text.now ≤ LONGEST_TEXT }
    ensures list { list.new ≡ (lex text.now 0 0).tokens }
    ensures stop { result ≡ answer (lex text.now 0 0).stop }
{
    let mut rest = Rest {
        bytes: text,
        place: 0,
    };
    while !rest.bytes.is_empty() {
        match rest.piece()? {
            None => rest.skip(1),
            Some((kind, len)) => {
                let place = rest.place;
                list.push(Token { kind, place }).unwrap();
                rest.skip(len);
            }
        }
    }
    Ok(())
}

impl Tokens {
    /// An empty list, with room for the tokens of any text.
    pub fn new(heap: Global) -> Result<Tokens, AllocError>
        ensures { IfOk result (λ t. list_in t ≡ []) }
    {
        Ok(Tokens {
            list: Reserved::new(heap)?,
        })
    }

    /// Cuts the text into its tokens. At a fault the tokens before it are in the list.
    pub fn cut(&mut self, text: &[u8]) -> Result<(), TextFault>
        ensures tokens { list_in self.new ≡ (tokens_of text.now).tokens }
        ensures stop { result ≡ answer (tokens_of text.now).stop }
        ensures spelled { Spelled text.now (list_in self.new) result }
        ensures alone { Alone text.now (list_in self.new) result }
        ensures rising { Rising 0 (list_in self.new) (end_of (tokens_of text.now).stop (length text.now)) }
    {
        self.list.clear();
        if text.len() > LONGEST_TEXT {
            return Err(TextFault::TooLong);
        }
        fill(&mut self.list, text)
    }

    /// The tokens.
    pub fn list(&self) -> &[Token]
        ensures { result.now ≡ list_in self.now }
    {
        self.list.as_slice()
    }
}
