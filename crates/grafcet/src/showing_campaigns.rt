//! Campaigns of two charts.
use crate::campaigning::{UNWRITTEN, print_log};
use crate::example::print_text;
use crate::failure::Failure;
use callers::carriages::drive;
use callers::task::scan_task;
use controller::campaign::Finished;
use controller::closing::close;
use controller::controller::Controller;
use image::Image;
use image::carriage::Carriage;
use image::frame_list::FrameList;
use plain::calls::{Call, Entry};
use running::code_file::campaign_of_file;
use running::runner::Runner;
use showing::scans::Named;
use std::io;

// The frames 0, 1, 2 and 3.
const TRACE: &[u8; 32] = b"\0\0\0\0\0\0\0\0\x01\0\0\0\0\0\0\0\x02\0\0\0\0\0\0\0\x03\0\0\0\0\0\0\0";

// A whole scan, and then the next frame.
const ROUND: [Call; 4] = [Call::Sample, Call::Work, Call::Deliver, Call::Advance];

// The shuttle of docs/images.md.
const SHUTTLE: &str = "step 0 initial
step 1
trans 0 from 0 to 1 when I1
trans 1 from 1 to 0 when I0
hold 0 Q0
hold 1 Q1
";

// The scans that docs/images.md shows of it, each behind so many that run unseen.
const SHOWN: [(usize, u32); 7] = [
    (0, 1),
    (0, 2),
    (97, 100),
    (0, 101),
    (0, 102),
    (97, 200),
    (0, 201),
];

// A campaign of a code file, up to the end of its last scan.
fn run_file<I: Image>(
    controller: &mut Controller,
    file: &[u8],
    image: &mut I,
    calls: &[Call],
    log: &mut [Entry],
) -> Result<(), Failure> {
    let outcome = campaign_of_file(controller, file, image, calls, log);
    let Finished { made: _, scan } = outcome.map_err(Failure::Refused)?;
    match close(controller, scan) {
        Ok(()) => Ok(()),
        Err(_) => unreachable!(),
    }
}

/// A campaign of a code file, over a trace.
pub fn show_trace(
    rt: &HostRuntime,
    controller: &mut Controller,
    file: &[u8],
) -> Result<(), Failure> {
    println!(rt; "\nA campaign of the code file, over a trace of the frames 0, 1, 2 and 3:")?;
    let mut calls = [Call::Advance; 16];
    for (k, call) in calls.iter_mut().enumerate() {
        *call = ROUND[k % 4];
    }
    let mut log = [UNWRITTEN; 16];
    let mut list = FrameList::new(TRACE).unwrap();
    run_file(controller, file, &mut list, &calls, &mut log)?;
    print_log(rt, "    ", &calls, &log)?;
    Ok(())
}

// A scan of the carriage, and where the carriage was.
fn show_scan(
    rt: &HostRuntime,
    scan: u32,
    position: u8,
    inputs: u64,
    outputs: u64,
    active: u64,
) -> io::Result<()> {
    let inputs = Named {
        letter: 'I',
        frame: inputs,
    };
    let outputs = Named {
        letter: 'Q',
        frame: outputs,
    };
    let active = Named {
        letter: 'X',
        frame: active,
    };
    println!(rt;
        "    scan {scan}: position {position}, inputs {inputs}, outputs {outputs}, active {active}"
    )
}

// To the other end and back.
fn drive_to_and_fro(
    rt: &HostRuntime,
    controller: &mut Controller,
    carriage: &mut Carriage,
) -> Result<(), Failure> {
    for &(unseen, scan) in &SHOWN {
        scan_task(controller, carriage, unseen).map_err(|stopped| Failure::Refused(stopped.fault))?;
        let position = carriage.position();
        let inputs = carriage.sample().unwrap();
        drive(controller, carriage).map_err(Failure::Refused)?;
        let active = controller.state().active;
        show_scan(rt, scan, position, inputs, carriage.outputs(), active)?;
    }
    Ok(())
}

fn show_shuttle(rt: &HostRuntime, runner: &mut Runner) -> Result<(), Failure> {
    println!(rt; "\nA chart that drives a carriage to and fro:")?;
    print_text(rt, SHUTTLE)?;
    runner.load(SHUTTLE.as_bytes()).map_err(Failure::Refused)?;
    drive_to_and_fro(rt, &mut runner.controller, &mut Carriage::new())
}

/// Scans of a carriage.
pub fn show_carriage(rt: &HostRuntime) -> Result<(), Failure> {
    let mut runner = Runner::new(rt.alloc())?;
    let outcome = show_shuttle(rt, &mut runner);
    drop(runner);
    outcome
}
