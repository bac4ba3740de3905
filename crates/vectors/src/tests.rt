//! Each refusal of a code file at its place, and one past each limit.
use crate::files::*;
use crate::ladder::climb;
use codefile::program::Program;
use faults::{Fault, FileFault, Layer, Section, TextFault};
use std::alloc::Global;
use std::process::Abort;
use std::test::Fail;
use words::instruction::Part;

// A file by its parts, and the fault that it should have.
#[derive(Clone, Copy, PartialEq, Eq, Debug)]
struct Case<'a> {
    clear: &'a [u32],
    enter: &'a [u32],
    hold: &'a [u32],
    fault: Option<FileFault>,
}

fn parts<'a>(
    clear: &'a [u32],
    enter: &'a [u32],
    hold: &'a [u32],
    fault: Option<FileFault>,
) -> Case<'a> {
    Case {
        clear,
        enter,
        hold,
        fault,
    }
}

const fn unlawful(place: usize) -> Option<FileFault> {
    Some(FileFault::UnlawfulWord(place))
}

const fn unbalanced(place: usize) -> Option<FileFault> {
    Some(FileFault::Unbalanced(place))
}

fn judge(rt: &impl Abort, heap: Global, cases: &[Case]) -> Result<(), Fail> {
    for case in cases {
        let mut program = Program::new(heap)?;
        let file = file_of(heap, case.clear, case.enter, case.hold)?;
        assert_eq!(rt; fault_of(&mut program, &file), case.fault.map(Fault::File));
    }
    Ok(())
}

// A file by its four pairs and the initial steps, ten numbers in all, and the section whose pair is at fault.
#[derive(Clone, Copy, PartialEq, Eq, Debug)]
struct Head {
    numbers: [u32; 10],
    words: usize,
    section: Section,
}

fn broken_head(numbers: [u32; 10], words: usize, section: Section) -> Head {
    Head {
        numbers,
        words,
        section,
    }
}

fn judge_heads(rt: &impl Abort, heap: Global, heads: &[Head]) -> Result<(), Fail> {
    let mut program = Program::new(heap)?;
    for head in heads {
        let words = times(heap, head.words, NOT)?;
        let file = with_head(heap, &head.numbers, &words)?;
        let fault = Fault::File(FileFault::BadPair(head.section));
        assert_eq!(rt; fault_of(&mut program, &file), Some(fault));
    }
    Ok(())
}

#[test]
fn an_accepted_file_gives_its_words(rt: HostRuntime) -> Result<(), Fail> {
    let heap = rt.alloc();
    let mut program = Program::new(heap)?;
    let good = file_of(
        heap,
        &[LD_X0, AND_OPEN, LD_X0, CLOSE, ST_T0],
        &[S_Q0],
        &[LD_X0, S_H0],
    )?;
    assert_eq!(rt; fault_of(&mut program, &good), None);
    assert_eq!(rt; program.initial(), 1);
    assert_eq!(rt; program.words(Part::Clear).len(), 5);
    assert_eq!(rt; program.words(Part::Enter).first().copied(), Some(S_Q0));
    assert_eq!(rt; program.words(Part::Hold).last().copied(), Some(S_H0));
    Ok(())
}

#[test]
fn a_refused_file_leaves_the_program(rt: HostRuntime) -> Result<(), Fail> {
    let heap = rt.alloc();
    let mut program = Program::new(heap)?;
    let good = file_of(heap, &[NOT], &[], &[LD_X0, S_H0])?;
    let other = file_of(heap, &[LD_X0, ST_T0], &[], &[ST_T0])?;
    assert_eq!(rt; fault_of(&mut program, &good), None);
    assert_eq!(rt;
        fault_of(&mut program, &other),
        unlawful(52).map(Fault::File)
    );
    assert_eq!(rt; program.words(Part::Clear).len(), 1);
    assert_eq!(rt; program.words(Part::Hold).len(), 2);
    Ok(())
}

#[test]
fn short_and_unmarked(rt: HostRuntime) -> Result<(), Fail> {
    let mut program = Program::new(rt.alloc())?;
    let short = Some(Fault::File(FileFault::TooShort));
    assert_eq!(rt; fault_of(&mut program, b""), short);
    assert_eq!(rt;
        fault_of(&mut program, b"SRI1 and then 31 more bytes, but 35"),
        short
    );
    let unmarked = Some(Fault::File(FileFault::NoMark));
    assert_eq!(rt;
        fault_of(&mut program, b"SRI2, and then 31 bytes, in all 36.."),
        unmarked
    );
    Ok(())
}

#[test]
fn pairs(rt: HostRuntime) -> Result<(), Fail> {
    let heads = [
        broken_head([40, 8, 44, 0, 44, 0, 44, 0, 1, 0], 0, Section::Initial),
        broken_head([36, 12, 48, 0, 48, 0, 48, 0, 1, 0], 1, Section::Initial),
        broken_head([36, 8, 48, 0, 48, 0, 48, 0, 1, 0], 1, Section::Clear),
        broken_head([36, 8, 44, 2, 46, 2, 48, 0, 1, 0], 1, Section::Clear),
        broken_head([36, 8, 44, 4, 44, 0, 48, 0, 1, 0], 1, Section::Enter),
        broken_head([36, 8, 44, 0, 44, 4, 48, 4, 1, 0], 1, Section::Hold),
        broken_head([36, 8, 44, 0, 44, 0, 44, 4, 1, 0], 2, Section::Hold),
        broken_head([36, 8, 44, 0, 44, 0, 44, 6, 1, 0], 2, Section::Hold),
        // 44 and 4,294,967,252 add up to 2^32, which is no offset
        broken_head(
            [36, 8, 44, 4294967252, 0, 44, 44, 0, 1, 0],
            0,
            Section::Enter,
        ),
        // a part that reaches behind the file's end is met at the last pair
        broken_head(
            [36, 8, 44, 4294967248, 4294967292, 0, 4294967292, 0, 1, 0],
            0,
            Section::Hold,
        ),
        // three lengths whose sum passes 2^32
        broken_head(
            [36, 8, 44, 2147483648, 2147483692, 2147483648, 44, 0, 1, 0],
            0,
            Section::Hold,
        ),
    ];
    judge_heads(&rt, rt.alloc(), &heads)
}

#[test]
fn words_at_the_limit(rt: HostRuntime) -> Result<(), Fail> {
    let heap = rt.alloc();
    let most = times(heap, 4096, NOT)?;
    let more = times(heap, 4097, NOT)?;
    let half = times(heap, 2048, NOT)?;
    let unread = times(heap, 4097, 0)?;
    let crowded = Some(FileFault::TooManyWords);
    let cases = [
        parts(&most, &[], &[], None),
        parts(&[], &most, &[], None),
        parts(&[], &[], &most, None),
        parts(&half, &half, &[], None),
        parts(&[], &more, &[], crowded),
        parts(&half, &half, &[NOT], crowded),
        // counted before any word is read
        parts(&unread, &[], &[], crowded),
    ];
    judge(&rt, heap, &cases)
}

#[test]
fn brackets_at_the_limit(rt: HostRuntime) -> Result<(), Fail> {
    let heap = rt.alloc();
    let deep = nested(heap, 17, AND_OPEN)?;
    let deeper = nested(heap, 18, OR_OPEN)?;
    let cases = [
        parts(&deep, &deep, &deep, None),
        parts(&deeper, &[], &[], unbalanced(112)),
        parts(&[NOT], &[], &deeper, unbalanced(116)),
        parts(&[], &[CLOSE], &[], unbalanced(44)),
        parts(&[OR_OPEN, CLOSE, CLOSE], &[], &[], unbalanced(52)),
        parts(&[], &[], &[AND_OPEN], unbalanced(48)),
    ];
    judge(&rt, heap, &cases)
}

#[test]
fn an_end_and_a_word_at_one_place(rt: HostRuntime) -> Result<(), Fail> {
    let cases = [
        parts(&[AND_OPEN], &[NOT], &[], unbalanced(48)),
        parts(&[AND_OPEN], &[0], &[], unlawful(48)),
        // the enter part is empty, and the next word is the hold part's
        parts(&[AND_OPEN], &[], &[NOT], unbalanced(48)),
        parts(&[AND_OPEN], &[], &[ST_T0], unlawful(48)),
        parts(&[AND_OPEN], &[], &[], unbalanced(48)),
        // the bracket is closed in the next part, which is no help
        parts(&[AND_OPEN], &[CLOSE], &[], unbalanced(48)),
        parts(&[], &[AND_OPEN], &[0], unlawful(48)),
    ];
    judge(&rt, rt.alloc(), &cases)
}

#[test]
fn the_earlier_word_first(rt: HostRuntime) -> Result<(), Fail> {
    let cases = [
        parts(&[NOT, S_H0, CLOSE], &[], &[], unlawful(48)),
        parts(&[NOT, CLOSE, S_H0], &[], &[], unbalanced(48)),
        parts(&[NOT], &[S_H0], &[S_Q0], unlawful(48)),
        parts(&[NOT], &[ST_T0], &[S_Q0], unlawful(52)),
        parts(&[NOT], &[S_Q0, CLOSE], &[S_Q0], unbalanced(52)),
    ];
    judge(&rt, rt.alloc(), &cases)
}

#[test]
fn lawful_words_counted(rt: HostRuntime) {
    assert_eq!(rt; lawful_in(Part::Clear), 3018);
    assert_eq!(rt; lawful_in(Part::Enter), 3018);
    assert_eq!(rt; lawful_in(Part::Hold), 2762);
}

#[test]
fn a_text_fault_goes_up_unchanged(rt: HostRuntime) {
    let fault = climb(TextFault::EighthBracket(77)).unwrap_err();
    assert_eq!(rt; fault.layer(), Layer::Text);
    assert_eq!(rt; fault.number(), 5);
    assert_eq!(rt; fault.place(), 77);
}
