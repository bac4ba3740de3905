//! Charts, the controllers that run them, and what campaigns come to.
use codefile::format::LONGEST_FILE;
use compile::compiler::Compiler;
use controller::campaign::{Finished, campaign};
use controller::closing::close;
use controller::controller::Controller;
use faults::{ControllerFault, Fault, ImageFault};
use image::Image;
use plain::calls::{Answer, Call, Entry};
use std::alloc::Global;
use std::process::Abort;
use std::test::Fail;
use verdict::outcome::Verdict;

pub(crate) const TWO_STEPS: &[u8] =
    b"step 0 initial\nstep 1\ntrans 0 from 0 to 1 when /I0\ntrans 1 from 1 to 0 when I1\nhold 1 Q0\nenter 1 set Q1";

/// Turns for ever while I0 is on, and then holds Q2 no more.
pub(crate) const TURNING: &[u8] =
    b"step 0 initial\nstep 1\ntrans 0 from 0 to 1 when I0\ntrans 1 from 1 to 0 when I0\nhold 0 Q2";

pub(crate) const SHUTTLE: &[u8] =
    b"step 0 initial\nstep 1\ntrans 0 from 0 to 1 when I1\ntrans 1 from 1 to 0 when I0\nhold 0 Q0\nhold 1 Q1";

pub(crate) const SCAN_OPEN: Answer = Answer::Refused(Fault::Controller(ControllerFault::ScanOpen));

pub(crate) const HALTED: Answer = Answer::Refused(Fault::Controller(ControllerFault::Halted));

pub(crate) const WRONG_PHASE: Answer = Answer::Refused(Fault::Controller(
    ControllerFault::WrongPhase,
));

pub(crate) const NOT_LIVE: Answer = Answer::Refused(Fault::Image(ImageFault::NotLive));

pub(crate) const STABLE: Answer = Answer::Found(Verdict::Stable(1));

/// A call, and the entry that it should have in the log.
#[derive(Clone, Copy, PartialEq, Eq, Debug)]
pub(crate) struct Row {
    pub call: Call,
    pub entry: Entry,
}

pub(crate) const fn expect(call: Call, answer: Answer, active: u64) -> Row {
    Row {
        call,
        entry: Entry { answer, active },
    }
}

/// Writes the code file of a chart text into the buffer, and answers its length.
pub(crate) fn file_of(
    rt: &impl Abort,
    heap: Global,
    text: &[u8],
    buffer: &mut [u8],
) -> Result<usize, Fail> {
    let mut compiler = Compiler::new(heap)?;
    let answer = compiler.compile(text, buffer);
    assert!(rt; answer.is_ok());
    Ok(answer.unwrap_or(0))
}

/// A controller with a chart.
pub(crate) fn controller_of(
    rt: &impl Abort,
    heap: Global,
    text: &[u8],
) -> Result<Controller, Fail> {
    let mut buffer = [0u8; LONGEST_FILE];
    let length = file_of(rt, heap, text, &mut buffer)?;
    let mut controller = Controller::new(heap)?;
    let answer = controller.load(buffer.get(..length).unwrap_or(&[]));
    assert!(rt; answer.is_ok());
    Ok(controller)
}

/// Makes the calls of the rows, at most 16, and compares what is written down. An open scan is ended.
pub(crate) fn judge<I: Image>(
    rt: &impl Abort,
    controller: &mut Controller,
    image: &mut I,
    rows: &[Row],
) {
    let mut calls = [Call::Advance; 16];
    for (call, row) in calls.iter_mut().zip(rows) {
        *call = row.call;
    }
    let mut log = [Entry {
        answer: Answer::Done,
        active: 0,
    }; 16];
    let length = rows.len().min(16);
    match campaign(controller, image, &calls[..length], &mut log) {
        Ok(Finished { made, scan }) => {
            assert_eq!(rt; made, rows.len());
            match close(controller, scan) {
                Ok(()) => {}
                Err(_) => unreachable!(),
            }
        }
        Err(_) => assert!(rt; false),
    }
    for (entry, row) in log.iter().zip(rows) {
        assert_eq!(rt; *entry, row.entry);
    }
}
