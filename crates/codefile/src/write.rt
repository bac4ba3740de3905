//! Writing a code file.
ghost use Rattle.std.specs.Prelude.{◌≡◌, ◌+◌, ◌*◌, ◌<◌, ◌≤◌, length, take, IfOk, MatchOption};
ghost use Rattle.codefile.specs.Written.{bytes32, word_bytes, pair_bytes, directory_bytes, head_bytes, over};
ghost use Rattle.codefile.specs.Written.{section_at, directory_for, file_of, word_count, code_for};
ghost use Rattle.codefile.specs.Written.{written, answered, buffer_after, LoadsBack};

use crate::directory::{Directory, Pair};
use crate::format::MARK;
use words::list::MOST_WORDS;

/// What a code file is to hold: the frame of the initial steps, and the words of each part.
#[derive(Clone, Copy, PartialEq, Eq, Debug)]
pub struct Contents<'a> {
    pub initial: u64,
    pub clear: &'a [u32],
    pub enter: &'a [u32],
    pub hold: &'a [u32],
}

/// Why a code file was not written. With a buffer that is too small comes the length of the file.
#[derive(Clone, Copy, PartialEq, Eq, Debug)]
pub enum WriteFault {
    TooManyWords,
    BufferTooShort(usize),
}

// Each of the functions `put_..` writes at a place in the buffer where there is room.
fn put_bytes(buffer: &mut [u8], at: usize, bytes: &[u8])
    requires { at + length bytes.now ≤ length buffer.old }
    ensures { buffer.new ≡ over at bytes.now buffer.old }
{
    buffer[at..at + bytes.len()].copy_from_slice(bytes);
}

// A number as four bytes, the least significant first.
fn put_number(buffer: &mut [u8], at: usize, n: u32)
    requires { at + 4 ≤ length buffer.old }
    ensures { buffer.new ≡ over at (bytes32 n) buffer.old }
{
    put_bytes(buffer, at, &n.to_le_bytes());
}

fn put_pair(buffer: &mut [u8], at: usize, pair: Pair)
    requires { at + 8 ≤ length buffer.old }
    ensures { buffer.new ≡ over at (pair_bytes pair) buffer.old }
{
    put_number(buffer, at, pair.offset);
    put_number(buffer, at + 4, pair.length);
}

fn put_directory(buffer: &mut [u8], d: Directory)
    requires { 36 ≤ length buffer.old }
    ensures { buffer.new ≡ over 4 (directory_bytes d) buffer.old }
{
    put_pair(buffer, 4, d.initial);
    put_pair(buffer, 12, d.clear);
    put_pair(buffer, 20, d.enter);
    put_pair(buffer, 28, d.hold);
}

fn put_words(buffer: &mut [u8], at: usize, words: &[u32])
    requires { at + 4 * length words.now ≤ length buffer.old }
    ensures { buffer.new ≡ over at (word_bytes words.now) buffer.old }
{
    for (i, word) in words.iter().enumerate() {
        put_number(buffer, at + 4 * i, *word);
    }
}

// The mark, the directory and the initial steps.
fn put_head(buffer: &mut [u8], d: Directory, initial: u64)
    requires { 44 ≤ length buffer.old }
    ensures { buffer.new ≡ over 0 (head_bytes d initial) buffer.old }
{
    put_bytes(buffer, 0, MARK);
    put_directory(buffer, d);
    put_bytes(buffer, 36, &initial.to_le_bytes());
}

// The section of these words, at an offset.
fn section(offset: u32, words: &[u32]) -> Pair
    requires { length words.now ≤ MOST_WORDS }
    ensures { result ≡ section_at offset (4 * length words.now) }
{
    let length = 4 * words.len() as u32;
    Pair { offset, length }
}

// Contents that a code file can hold: at most `MOST_WORDS` words.
#[derive(Clone, Copy, PartialEq, Eq, Debug)]
struct Fitting<'a> {
    contents: Contents<'a>,
    ghost few: { word_count (code_for contents) ≤ 4096 },
}

impl<'a> Fitting<'a> {
    fn new(contents: Contents<'a>) -> Option<Fitting<'a>>
        ensures { MatchOption result
            (MOST_WORDS < word_count (code_for contents.entry))
            (λ f. f.contents ≡ contents.entry) }
    {
        if contents.clear.len() + contents.enter.len() + contents.hold.len() > MOST_WORDS {
            return None;
        }
        Some(Fitting { contents })
    }

    fn directory(&self) -> Directory
        ensures { result ≡ directory_for (code_for self.now.contents) }
    {
        let initial = Pair {
            offset: 36,
            length: 8,
        };
        let clear = section(44, self.contents.clear);
        let enter = section(44 + clear.length, self.contents.enter);
        let hold = section(enter.offset + enter.length, self.contents.hold);
        Directory {
            initial,
            clear,
            enter,
            hold,
        }
    }

    // The length of the file.
    fn len(&self) -> usize
        ensures file { result ≡ length (file_of (code_for self.now.contents)) }
        ensures words { result ≡ 44 + 4 * word_count (code_for self.now.contents) }
    {
        44 + 4 * (self.contents.clear.len() + self.contents.enter.len() + self.contents.hold.len())
    }

    // Puts the file at the beginning.
    fn put(&self, buffer: &mut [u8])
        requires { 44 + 4 * word_count (code_for self.now.contents) ≤ length buffer.old }
        ensures file { buffer.new ≡ over 0 (file_of (code_for self.now.contents)) buffer.old }
        ensures loads_back { LoadsBack (code_for self.now.contents)
            (take (length (file_of (code_for self.now.contents))) buffer.new) }
    {
        put_head(buffer, self.directory(), self.contents.initial);
        put_words(buffer, 44, self.contents.clear);
        let enter = 44 + 4 * self.contents.clear.len();
        put_words(buffer, enter, self.contents.enter);
        let hold = enter + 4 * self.contents.enter.len();
        put_words(buffer, hold, self.contents.hold);
    }
}

/// Writes a code file over the first bytes of the buffer and says how many they are. The bytes behind them keep their
/// values, and after a refusal all bytes do.
pub fn write(contents: Contents<'_>, buffer: &mut [u8]) -> Result<usize, WriteFault>
    ensures answer { result ≡ answered (written (code_for contents.entry) (length buffer.old)) }
    ensures buffer { buffer.new ≡ buffer_after (written (code_for contents.entry) (length buffer.old)) buffer.old }
    ensures loads_back { IfOk result (λ n. LoadsBack (code_for contents.entry) (take n buffer.new)) }
{
    let file = Fitting::new(contents).ok_or(WriteFault::TooManyWords)?;
    let length = file.len();
    if buffer.len() < length {
        return Err(WriteFault::BufferTooShort(length));
    }
    file.put(buffer);
    Ok(length)
}
