//! The ten words.
ghost use Rattle.std.specs.Prelude.{◌≡◌};
ghost use Rattle.std.specs.Str.{bytes_eq};
ghost use Rattle.text.specs.Spelling.{word_of};

use crate::token::Word;

// Whether the letters are those of the word.
fn spells(letters: &[u8], word: &[u8]) -> bool
    ensures { result ≡ bytes_eq letters.now word.now }
{
    letters == word
}

/// The word that the letters spell.
// A guard for each word, and no table that is searched: the letters of each then stand in the comparison itself, which is
// faster.
pub fn word_of(letters: &[u8]) -> Option<Word>
    ensures { result ≡ word_of letters.now }
{
    match letters {
        w if spells(w, b"step") => Some(Word::Step),
        w if spells(w, b"initial") => Some(Word::Initial),
        w if spells(w, b"trans") => Some(Word::Trans),
        w if spells(w, b"from") => Some(Word::From),
        w if spells(w, b"to") => Some(Word::To),
        w if spells(w, b"when") => Some(Word::When),
        w if spells(w, b"hold") => Some(Word::Hold),
        w if spells(w, b"enter") => Some(Word::Enter),
        w if spells(w, b"set") => Some(Word::Set),
        w if spells(w, b"reset") => Some(Word::Reset),
        _ => None,
    }
}
