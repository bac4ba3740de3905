//! Code files made part by part, and judged by a program.
use codefile::program::Program;
use faults::Fault;
use std::alloc::{AllocError, Global};
use words::codec::is_lawful;
use words::instruction::Part;

pub(crate) const NOT: u32 = 0x0a00_0000;

pub(crate) const AND_OPEN: u32 = 0x0700_0000;

pub(crate) const OR_OPEN: u32 = 0x0800_0000;

pub(crate) const CLOSE: u32 = 0x0900_0000;

pub(crate) const LD_X0: u32 = 0x0120_0000;

pub(crate) const ST_T0: u32 = 0x0b70_0000;

pub(crate) const S_Q0: u32 = 0x0c30_0000;

pub(crate) const S_H0: u32 = 0x0c90_0000;

fn push_number(file: &mut Vec<u8>, n: u32) -> Result<(), AllocError> {
    file.extend_from_slice(&n.to_le_bytes())
}

fn push_words(file: &mut Vec<u8>, words: &[u32]) -> Result<(), AllocError> {
    for &word in words {
        push_number(file, word)?;
    }
    Ok(())
}

/// A file with these numbers behind its mark, ten in all: four pairs, and the initial steps in two halves.
pub(crate) fn with_head(heap: Global, head: &[u32], words: &[u32]) -> Result<Vec<u8>, AllocError> {
    let mut file = Vec::new(heap);
    file.extend_from_slice(b"SRI1")?;
    push_words(&mut file, head)?;
    push_words(&mut file, words)?;
    Ok(file)
}

// The pair of a part that begins at an offset, and where it ends.
fn push_pair(head: &mut Vec<u32>, offset: u32, words: &[u32]) -> Result<u32, AllocError> {
    let length = (words.len() % 65536) as u32 * 4;
    head.push(offset)?;
    head.push(length)?;
    Ok(offset.wrapping_add(length))
}

/// A file of these parts, with step 0 as its initial step.
pub(crate) fn file_of(
    heap: Global,
    clear: &[u32],
    enter: &[u32],
    hold: &[u32],
) -> Result<Vec<u8>, AllocError> {
    let mut head = Vec::new(heap);
    head.push(36)?;
    head.push(8)?;
    let end = push_pair(&mut head, 44, clear)?;
    let end = push_pair(&mut head, end, enter)?;
    let _ = push_pair(&mut head, end, hold)?;
    head.push(1)?;
    head.push(0)?;
    let mut file = with_head(heap, &head, clear)?;
    push_words(&mut file, enter)?;
    push_words(&mut file, hold)?;
    Ok(file)
}

/// So many times one word.
pub(crate) fn times(heap: Global, n: usize, word: u32) -> Result<Vec<u32>, AllocError> {
    vec![in heap; word; n]
}

/// So many opening words, and then as many closing ones.
pub(crate) fn nested(heap: Global, n: usize, open: u32) -> Result<Vec<u32>, AllocError> {
    let mut words = times(heap, n, open)?;
    let closing = times(heap, n, CLOSE)?;
    words.extend_from_slice(&closing)?;
    Ok(words)
}

/// The fault of a file, or None where it is accepted.
pub(crate) fn fault_of(program: &mut Program, file: &[u8]) -> Option<Fault> {
    program.load(file).err().map(Fault::from)
}

/// How many words are lawful in a part, of those whose lowest 14 bits are 0.
pub(crate) fn lawful_in(part: Part) -> usize {
    (0..1u32 << 18)
        .filter(|n| is_lawful(part, *n << 14))
        .count()
}
