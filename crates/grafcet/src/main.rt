//! The program `grafcet`, see docs/program.md.
#![tactic(auto)]

ghost use Rattle.std.specs.Prelude.{◌≡◌};

mod campaigning;
mod compiling;
mod demo;
mod example;
mod failure;
mod files;
mod load;
mod scanning;
mod showing_campaigns;

use commands::command::{Command, command_of};
use failure::Failure;
use std::env;
use std::process::ExitCode;

// Tells a failure on standard error, unless it is told already, and hands it on.
fn told(rt: &HostRuntime, subject: &str, res: Result<(), Failure>) -> Result<(), Failure>
    ensures { result ≡ res }
{
    match &res {
        Ok(()) | Err(Failure::Reported) => {}
        Err(failure) => {
            let _ = eprintln!(rt; "{subject}: {failure}");
        }
    }
    res
}

fn perform(rt: &HostRuntime, args: &[String]) -> Result<(), Failure> {
    match command_of(args) {
        Some(Command::Demo) => told(rt, "grafcet", demo::run(rt)),
        Some(Command::Compile { chart, out }) => {
            let outcome = compiling::run(rt, chart, out);
            let subject = match outcome {
                Err(Failure::Unsaved(_)) => out,
                _ => chart,
            };
            told(rt, subject, outcome)
        }
        Some(Command::Load(path)) => told(rt, path, load::run(rt, path)),
        Some(Command::Scan { code, frames }) => told(rt, code, scanning::run(rt, code, frames)),
        Some(
            Command::Campaign {
                chart,
                image,
                calls,
            },
        ) => told(rt, chart, campaigning::run(rt, chart, image, calls)),
        None => told(rt, "usage", Err(Failure::Usage)),
    }
}

fn arguments(rt: &HostRuntime) -> Result<Vec<String>, Failure> {
    let args = env::args(rt).map_err(Failure::Arguments)?;
    Ok(args.collect(rt.alloc())?)
}

// A failure ends the program with status 1.
fn main(rt: HostRuntime) -> ExitCode {
    let outcome = match arguments(&rt) {
        Ok(args) => perform(&rt, &args),
        Err(failure) => told(&rt, "grafcet", Err(failure)),
    };
    match outcome {
        Ok(()) => ExitCode::SUCCESS,
        Err(_) => ExitCode::FAILURE,
    }
}
