//! Scans, frame by frame.
ghost use Rattle.std.specs.Prelude.{◌≡◌, IfOk, OnErr};
ghost use Rattle.evolution.specs.Agreement.{CompiledFrom};
ghost use Rattle.evolution.specs.Chart.{Chart};
ghost use Rattle.plain.specs.Behaviours.{by_words, by_chart};
ghost use Rattle.plain.specs.Stages.{phase_refusal};
ghost use Rattle.plain.specs.declared.calls.Call.TheVariants.{Sample};
ghost use Rattle.controller.specs.Standing.{stage_of};
ghost use Rattle.controller.specs.Calls.{fault_of};
ghost use Rattle.callers.specs.Panels.{Board, set_to};
ghost use Rattle.callers.specs.Scans.{Cycled};

use callers::cycles::cycle;
use callers::panel::Panel;
use controller::controller::Controller;
use faults::Fault;
use frames::bits::is_on;
use std::{fmt, io};
use verdict::outcome::Verdict;

/// What a frame comes to, and the outputs and the active steps once it is delivered.
#[derive(Clone, Copy, PartialEq, Eq, Debug)]
pub struct Row {
    pub verdict: Verdict,
    pub outputs: u64,
    pub active: u64,
}

/// The scan of a frame that is set at the panel, delivered to the panel.
pub fn scan_row(controller: &mut Controller, panel: &mut Panel, frame: u64) -> Result<Row, Fault>
    ensures fault { fault_of result ≡ phase_refusal Sample (stage_of controller.old.phase) }
    ensures words { IfOk result (λ row. Cycled (by_words controller.old.program) controller.old frame row.verdict
        controller.new row.outputs) }
    ensures chart { (c : Chart) → CompiledFrom c controller.old.program →
        IfOk result (λ row. Cycled (by_chart c) controller.old frame row.verdict controller.new row.outputs) }
    ensures active { IfOk result (λ row. row.active ≡ controller.new.state.active) }
    ensures panel { IfOk result (λ row. panel.new ≡ record { switches = frame; lamps = row.outputs }) }
    ensures refused { OnErr result (controller.new ≡ controller.old) }
    ensures switched { OnErr result (panel.new ≡ set_to frame panel.old) }
{
    panel.set_switches(frame);
    let verdict = cycle(controller, panel)?;
    Ok(Row {
        verdict,
        outputs: panel.lamps(),
        active: controller.state().active,
    })
}

// Scans the frames one after the other, each delivered to a panel, and tells what each comes to. After an unstable scan the
// next one is refused, and none follows.
fn tell_scans<F: FnMut(u64, Row) -> io::Result<()>>(
    controller: &mut Controller,
    frames: &[u64],
    mut tell: F,
) -> io::Result<()>
    requires { F.IsAlwaysCallable tell }
{
    let mut panel = Panel::new();
    for &frame in frames {
        let Ok(row) = scan_row(controller, &mut panel, frame) else {
            break;
        };
        tell(frame, row)?;
    }
    Ok(())
}

// The line of a scan.
fn print_row(rt: &impl Print, frame: u64, row: Row) -> io::Result<()> {
    let Row {
        verdict,
        outputs,
        active,
    } = row;
    println!(rt; "{frame} {verdict} {outputs:016x} {active:016x}")
}

/// Scans the frames one after the other, and prints a line for each scan.
pub fn print_scans(rt: &impl Print, controller: &mut Controller, frames: &[u64]) -> io::Result<()> {
    tell_scans(controller, frames, |frame, row| print_row(rt, frame, row))
}

/// The bits of a frame that are on, each by a letter and its number.
#[derive(Clone, Copy, PartialEq, Eq, Debug)]
pub struct Named {
    pub letter: char,
    pub frame: u64,
}

impl fmt::Display for Named {
    fn fmt<W: fmt::Write>(&self, f: &mut fmt::Formatter<W>) -> fmt::Result {
        let letter = self.letter;
        if self.frame == 0 {
            return write!(f, "none");
        }
        let mut between = "";
        for n in 0..64u8 {
            if is_on(self.frame, n) {
                write!(f, "{between}{letter}{n}")?;
                between = " ";
            }
        }
        Ok(())
    }
}

// What a scan comes to, in words.
fn show_row(rt: &impl Print, frame: u64, row: Row) -> io::Result<()> {
    let verdict = row.verdict;
    let inputs = Named { letter: 'I', frame };
    let outputs = Named {
        letter: 'Q',
        frame: row.outputs,
    };
    let active = Named {
        letter: 'X',
        frame: row.active,
    };
    println!(rt;
        "    frame {frame}, inputs {inputs}: {verdict}, outputs {outputs}, active {active}"
    )
}

/// Scans the frames one after the other, and shows each scan.
pub fn show_scans(rt: &impl Print, controller: &mut Controller, frames: &[u64]) -> io::Result<()> {
    tell_scans(controller, frames, |frame, row| show_row(rt, frame, row))
}
