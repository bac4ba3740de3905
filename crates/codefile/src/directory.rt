//! The head of a code file: its mark and its directory of four pairs.
ghost use Rattle.std.specs.Prelude.{◌≡◌, ◌+◌, ◌≤◌, length, drop, IfOk};
ghost use Rattle.codefile.specs.File.{le32, pair_at, directory_of, follows, broken_pair, layout_of, Regular};

use crate::format::MARK;
use crate::parts::Parts;
use faults::{FileFault, Section};
use words::list::MOST_WORDS;

/// One entry of the directory.
#[derive(Clone, Copy, PartialEq, Eq, Debug)]
pub struct Pair {
    pub offset: u32,
    pub length: u32,
}

#[derive(Clone, Copy, PartialEq, Eq, Debug)]
pub struct Directory {
    pub initial: Pair,
    pub clear: Pair,
    pub enter: Pair,
    pub hold: Pair,
}

// Four bytes as a number, the least significant first.
pub(crate) fn number(a: u8, b: u8, c: u8, d: u8) -> u32
    ensures { result ≡ le32 a b c d }
{
    u32::from_le_bytes([a, b, c, d])
}

// The pair at the front, and the rest.
fn read_pair(bytes: &[u8]) -> (Pair, &[u8])
    requires { 8 ≤ length bytes.now }
    ensures pair { result.0 ≡ pair_at bytes.now 0 }
    ensures rest { result.1.now ≡ drop 8 bytes.now }
    ensures shorter { length result.1.now + 8 ≡ length bytes.now }
{
    match bytes {
        [a, b, c, d, e, f, g, h, rest @ ..] => {
            let offset = number(*a, *b, *c, *d);
            let length = number(*e, *f, *g, *h);
            (Pair { offset, length }, rest)
        }
        _ => unreachable(),
    }
}

fn directory_of(head: &[u8; 36]) -> Directory
    ensures { result ≡ directory_of head.now }
{
    let (initial, rest) = read_pair(&head[4..]);
    let (clear, rest) = read_pair(rest);
    let (enter, rest) = read_pair(rest);
    let (hold, _) = read_pair(rest);
    Directory {
        initial,
        clear,
        enter,
        hold,
    }
}

// Whether a part begins where the section before it ends, and has whole words.
fn does_follow(before: Pair, pair: Pair) -> bool
    ensures { result ≡ follows before pair }
{
    u64::from(pair.offset) == u64::from(before.offset) + u64::from(before.length)
        && pair.length % 4 == 0
}

// The first section with a wrong entry in the directory of a file of this size.
fn broken_pair(d: Directory, size: usize) -> Option<Section>
    ensures { result ≡ broken_pair d size }
{
    if d.initial.offset != 36 || d.initial.length != 8 {
        return Some(Section::Initial);
    }
    if !does_follow(d.initial, d.clear) {
        return Some(Section::Clear);
    }
    if !does_follow(d.clear, d.enter) {
        return Some(Section::Enter);
    }
    if !does_follow(d.enter, d.hold) || d.hold.offset as usize + d.hold.length as usize != size {
        return Some(Section::Hold);
    }
    None
}

// The parts' lengths, or the fault of the head: 14 to 17.
pub(crate) fn layout_of(bytes: &[u8]) -> Result<Parts<usize>, FileFault>
    ensures layout { result ≡ layout_of bytes.now }
    ensures regular { IfOk result (λ l. Regular (length bytes.now) l) }
{
    let Some(head) = bytes.first_chunk::<36>() else {
        return Err(FileFault::TooShort);
    };
    if !head.starts_with(MARK) {
        return Err(FileFault::NoMark);
    }
    let d = directory_of(head);
    if let Some(section) = broken_pair(d, bytes.len()) {
        return Err(FileFault::BadPair(section));
    }
    let clear = d.clear.length as usize;
    let enter = d.enter.length as usize;
    let hold = d.hold.length as usize;
    if (clear + enter + hold) / 4 > MOST_WORDS {
        return Err(FileFault::TooManyWords);
    }
    Ok(Parts { clear, enter, hold })
}
