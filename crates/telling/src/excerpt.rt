//! The line of a text in which a place stands, as it is shown on a screen.
ghost use Rattle.std.specs.Prelude.{◌≡◌, ◌+◌, ◌≤◌, length, IfOk, string_bytes};
ghost use Rattle.telling.specs.Excerpts.{column_of, excerpt, shown_before, shown_from};

use std::alloc::{AllocError, Global};

// The most bytes of a long line that are shown before a place, and the most from the place on.
const MARGIN: usize = 100;

// Where the line begins, or a hundred bytes before the place.
fn start_of(text: &[u8], place: usize) -> usize
    requires { place ≤ length text.now }
    ensures { result + length (shown_before text.now place) ≡ place }
{
    let before = text[..place].iter().rev().take(MARGIN);
    place - before.take_while(|b| **b != b'\n').count()
}

// Where the line ends, or a hundred bytes behind the place.
fn end_of(text: &[u8], place: usize) -> usize
    requires { place ≤ length text.now }
    ensures shown { result ≡ place + length (shown_from text.now place) }
    ensures within { result ≤ length text.now }
{
    let behind = text[place..].iter().take(MARGIN);
    place + behind.take_while(|b| **b != b'\n').count()
}

// A byte as one column of a screen: itself, or a question mark.
fn column_of(byte: u8) -> char
    ensures { result ≡ column_of byte }
{
    match byte {
        b' '..=b'~' => char::from(byte),
        _ => '?',
    }
}

/// The line, and below it a caret under the place.
pub fn excerpt(heap: Global, text: &[u8], place: usize) -> Result<String, AllocError>
    ensures { IfOk result (λ s. string_bytes s ≡ excerpt text.now place) }
{
    let place = place.min(text.len());
    let start = start_of(text, place);
    let line = &text[start..end_of(text, place)];
    let mut shown = String::new(heap);
    for &byte in line {
        shown.push(column_of(byte))?;
    }
    shown.push('\n')?;
    for _ in 0..place - start {
        shown.push(' ')?;
    }
    shown.push('^')?;
    Ok(shown)
}
