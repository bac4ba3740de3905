//! `grafcet campaign CHART IMAGE CALLS`: a list of calls, made of the controller that runs a chart, and of its image.
use crate::compiling::refuse;
use crate::failure::Failure;
use crate::files::read_file;
use faults::{Fault, TraceFault};
use image::Image;
use image::carriage::Carriage;
use image::frame_list::FrameList;
use plain::calls::{Answer, Call, Entry};
use running::call_list::{ListError, read_calls};
use running::runner::Runner;
use std::io;
use telling::cause::cause_of;

/// What stands in a log before the calls are made.
pub const UNWRITTEN: Entry = Entry {
    answer: Answer::Done,
    active: 0,
};

/// A line for each call: the call, its answer, and the outputs and the active steps after it. At first no output is on.
pub fn print_log(rt: &HostRuntime, margin: &str, calls: &[Call], log: &[Entry]) -> io::Result<()> {
    let mut outputs = 0;
    for (call, entry) in calls.iter().zip(log) {
        let Entry { answer, active } = *entry;
        outputs = answer.outputs(outputs);
        println!(rt; "{margin}{call} {answer} {outputs:016x} {active:016x}")?;
    }
    Ok(())
}

// The bytes of a file. If it cannot be read, that is told with its name.
fn read_named(rt: &HostRuntime, path: &str) -> Result<Vec<u8>, Failure> {
    read_file(rt, path).map_err(|failure| {
        let _ = eprintln!(rt; "{path}: {failure}");
        Failure::Reported
    })
}

// The calls of a file. A line that is no call is told on standard error.
fn calls_in(rt: &HostRuntime, path: &str) -> Result<Vec<Call>, Failure> {
    let text = read_named(rt, path)?;
    read_calls(rt.alloc(), &text).map_err(|e| match e {
        ListError::NoCall(line) => {
            let _ = eprintln!(rt;
                "{path}:{line}: a call is sample, work, deliver, abandon, restart or advance"
            );
            Failure::Reported
        }
        ListError::OutOfMemory => Failure::OutOfMemory,
    })
}

fn run_text<I: Image>(
    rt: &HostRuntime,
    chart: &str,
    text: &[u8],
    image: &mut I,
    calls: &[Call],
) -> Result<(), Failure> {
    let mut log = vec![in rt.alloc(); UNWRITTEN; calls.len()]?;
    let mut runner = Runner::new(rt.alloc())?;
    let outcome = runner.run_calls(text, image, calls, &mut log);
    drop(runner);
    match outcome {
        Ok(_) => Ok(print_log(rt, "", calls, &log)?),
        Err(fault) => refuse(rt, chart, text, fault),
    }
}

fn run_over<I: Image>(
    rt: &HostRuntime,
    chart: &str,
    image: &mut I,
    calls: &[Call],
) -> Result<(), Failure> {
    let text = read_named(rt, chart)?;
    run_text(rt, chart, &text, image, calls)
}

fn refuse_trace(rt: &HostRuntime, path: &str, fault: TraceFault) -> Result<(), Failure> {
    let fault = Fault::from(fault);
    let cause = cause_of(fault);
    println!(rt; "refused {fault}")?;
    let _ = eprintln!(rt; "{path}: {cause}");
    Err(Failure::Reported)
}

fn run_over_trace(
    rt: &HostRuntime,
    chart: &str,
    path: &str,
    calls: &[Call],
) -> Result<(), Failure> {
    let trace = read_named(rt, path)?;
    match FrameList::new(&trace) {
        Ok(mut list) => run_over(rt, chart, &mut list, calls),
        Err(fault) => refuse_trace(rt, path, fault),
    }
}

pub fn run(rt: &HostRuntime, chart: &str, image: &str, calls: &str) -> Result<(), Failure> {
    let calls = calls_in(rt, calls)?;
    if image == "carriage" {
        run_over(rt, chart, &mut Carriage::new(), &calls)
    } else {
        run_over_trace(rt, chart, image, &calls)
    }
}
