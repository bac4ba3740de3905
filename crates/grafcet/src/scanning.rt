//! `grafcet scan CODE FRAME..`: the scans of a code file, frame by frame.
ghost use Rattle.std.specs.Prelude.{OnOk};
ghost use Rattle.std.specs.Str.Parse.{ParsesUnsigned};
ghost use Rattle.controller.specs.Calls.{Loaded};

use crate::failure::Failure;
use crate::files::read_file;
use crate::load::refuse_file;
use controller::controller::Controller;
use showing::scans::print_scans;

// The frame that an argument names. One that is no such number is told on standard error.
fn frame_of(rt: &HostRuntime, text: &str) -> Result<u64, Failure>
    ensures { ParsesUnsigned 64 10 text.now result }
{
    text.parse::<u64>().map_err(|_| {
        let _ = eprintln!(rt;
            "frame {text:?}: a frame is a number from 0 to {}",
            u64::MAX
        );
        Failure::Reported
    })
}

fn read_frames(rt: &HostRuntime, texts: &[String], frames: &mut [u64]) -> Result<(), Failure> {
    for (frame, text) in frames.iter_mut().zip(texts) {
        *frame = frame_of(rt, text)?;
    }
    Ok(())
}

// The frames that the arguments name.
fn frames_of(rt: &HostRuntime, texts: &[String]) -> Result<Vec<u64>, Failure> {
    let mut frames = vec![in rt.alloc(); 0u64; texts.len()]?;
    read_frames(rt, texts, &mut frames)?;
    Ok(frames)
}

// Loads a code file into the controller. Of a refused one the fault is printed.
fn load_code(rt: &HostRuntime, controller: &mut Controller, file: &[u8]) -> Result<(), Failure>
    ensures { OnOk result (Loaded file.now controller.new) }
{
    match controller.load(file) {
        Ok(()) => Ok(()),
        Err(fault) => refuse_file(rt, fault),
    }
}

// Loads a code file, and prints the scans of its program.
fn scan_code(
    rt: &HostRuntime,
    controller: &mut Controller,
    file: &[u8],
    frames: &[u64],
) -> Result<(), Failure> {
    load_code(rt, controller, file)?;
    print_scans(rt, controller, frames)?;
    Ok(())
}

fn scan_file(rt: &HostRuntime, path: &str, frames: &[u64]) -> Result<(), Failure> {
    let file = read_file(rt, path)?;
    let mut controller = Controller::new(rt.alloc())?;
    let outcome = scan_code(rt, &mut controller, &file, frames);
    drop(controller);
    outcome
}

pub fn run(rt: &HostRuntime, path: &str, texts: &[String]) -> Result<(), Failure> {
    let frames = frames_of(rt, texts)?;
    scan_file(rt, path, &frames)
}
