//! Charts and files that run, and what their scans come to.
use codefile::format::LONGEST_FILE;
use codefile::program::Program;
use compile::compiler::Compiler;
use evolution::state::State;
use std::alloc::{AllocError, Global};
use std::process::Abort;
use std::test::Fail;
use verdict::outcome::{Outcome, Verdict};
use verdict::scan::scan;

/// A frame, and what its scan comes to: the verdict, the output frame and the active steps of the state that follows.
#[derive(Clone, Copy, PartialEq, Eq, Debug)]
pub(crate) struct Row {
    pub inputs: u64,
    pub verdict: Verdict,
    pub outputs: u64,
    pub active: u64,
}

pub(crate) const fn expect(inputs: u64, verdict: Verdict, outputs: u64, active: u64) -> Row {
    Row {
        inputs,
        verdict,
        outputs,
        active,
    }
}

/// Scans the frames of the rows one after the other, the first from the start state and with no frame before it, each later one
/// from the state that the one before led to and with the frame of that one before it; and compares.
pub(crate) fn judge_scans(rt: &impl Abort, program: &Program, rows: &[Row]) -> Result<(), Fail> {
    let mut state = State::start(program);
    let mut previous = None;
    for row in rows {
        let inputs = row.inputs;
        let Outcome {
            verdict,
            state: next,
        } = scan(program, state, previous, inputs);
        let found = expect(inputs, verdict, next.outputs(program, inputs), next.active);
        assert_eq!(rt; found, *row);
        state = next;
        previous = Some(inputs);
    }
    Ok(())
}

/// The program of a chart text.
pub(crate) fn program_of(rt: &impl Abort, heap: Global, text: &[u8]) -> Result<Program, Fail> {
    let mut compiler = Compiler::new(heap)?;
    let mut program = Program::new(heap)?;
    let mut buffer = [0u8; LONGEST_FILE];
    let answer = compiler.build(text, &mut buffer, &mut program);
    assert!(rt; answer.is_ok());
    Ok(program)
}

// A number below 100, in two digits.
fn push_number(text: &mut Vec<u8>, number: u8) -> Result<(), AllocError> {
    text.push(b'0' + number / 10 % 10)?;
    text.push(b'0' + number % 10)?;
    Ok(())
}

// A transition with the number of its preceding step, up to its condition.
fn push_transition(text: &mut Vec<u8>, from: u8, to: u8) -> Result<(), AllocError> {
    text.extend_from_slice(b"\ntrans ")?;
    push_number(text, from)?;
    text.extend_from_slice(b" from ")?;
    push_number(text, from)?;
    text.extend_from_slice(b" to ")?;
    push_number(text, to)?;
    text.extend_from_slice(b" when ")
}

/// A chain of 64 steps: step 0 is left when I0 is on and does not rise, and every other step at once.
pub(crate) fn chain(heap: Global) -> Result<Vec<u8>, AllocError> {
    let mut text = Vec::new(heap);
    text.extend_from_slice(b"step 0 initial")?;
    for n in 1..64 {
        text.extend_from_slice(b"\nstep ")?;
        push_number(&mut text, n)?;
    }
    push_transition(&mut text, 0, 1)?;
    text.extend_from_slice(b"I0.!/I0")?;
    for n in 1..63 {
        push_transition(&mut text, n, n + 1)?;
        text.push(b'1')?;
    }
    Ok(text)
}

/// The chain closed to a ring, by a transition from its last step to its first that is always true.
pub(crate) fn ring(heap: Global) -> Result<Vec<u8>, AllocError> {
    let mut text = chain(heap)?;
    push_transition(&mut text, 63, 0)?;
    text.push(b'1')?;
    Ok(text)
}
