//! Chart texts, judged by a compiler.
use codefile::format::LONGEST_FILE;
use compile::compiler::Compiler;
use faults::{ChartFault, CodeFault, TextFault};
use std::alloc::{AllocError, Global};
use std::process::Abort;
use std::test::Fail;

/// A text, and the fault that it should have.
#[derive(Clone, Copy, PartialEq, Eq, Debug)]
pub(crate) struct Case<'a> {
    pub text: &'a str,
    pub fault: Option<CodeFault>,
}

pub(crate) const fn fine(text: &str) -> Case<'_> {
    Case { text, fault: None }
}

pub(crate) const fn in_text(text: &str, fault: TextFault) -> Case<'_> {
    Case {
        text,
        fault: Some(CodeFault::Chart(ChartFault::Text(fault))),
    }
}

pub(crate) const fn in_chart(text: &str, fault: ChartFault) -> Case<'_> {
    Case {
        text,
        fault: Some(CodeFault::Chart(fault)),
    }
}

/// The fault of a text, or None where it is accepted.
pub(crate) fn fault_of(compiler: &mut Compiler, text: &[u8]) -> Option<CodeFault> {
    let mut buffer = [0u8; LONGEST_FILE];
    compiler.compile(text, &mut buffer).err()
}

/// Compiles each text with one compiler.
pub(crate) fn judge_texts(rt: &impl Abort, heap: Global, cases: &[Case]) -> Result<(), Fail> {
    let mut compiler = Compiler::new(heap)?;
    for case in cases {
        let text = case.text;
        assert_eq!(rt;
            fault_of(&mut compiler, text.as_bytes()),
            case.fault,
            "{}",
            text
        );
    }
    Ok(())
}

/// A beginning, and so many times a piece behind it.
pub(crate) fn repeated(
    heap: Global,
    head: &str,
    times: usize,
    piece: &str,
) -> Result<Vec<u8>, AllocError> {
    let mut text = Vec::new(heap);
    text.extend_from_slice(head.as_bytes())?;
    for _ in 0..times {
        text.extend_from_slice(piece.as_bytes())?;
    }
    Ok(text)
}
