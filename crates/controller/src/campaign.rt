//! Campaigns: lists of calls to a controller and to its image. See docs/plain-chart.md.
ghost use Rattle.std.specs.Prelude.{◌≡◌, not, min, length, take, is_ok, IfOk, IfErr};
ghost use Rattle.evolution.specs.Agreement.{CompiledFrom};
ghost use Rattle.evolution.specs.Chart.{Chart};
ghost use Rattle.plain.specs.Behaviours.{by_words, by_chart};
ghost use Rattle.plain.specs.Stages.{scan_open};
ghost use Rattle.plain.specs.Campaigns.{Campaign};
ghost use Rattle.controller.specs.Standing.{stage_of, standing};
ghost use Rattle.controller.specs.Calls.{open_scan as scan_in};
ghost use Rattle.controller.specs.Beside.{Makes};

use crate::controller::Controller;
use crate::phase::Phase;
use crate::scans::{Held, OpenScan, SampledScan, WorkedScan};
use faults::{ControllerFault, Fault};
use image::Image;
use plain::calls::{Answer, Call, Entry};

/// How many calls a campaign made, and the scan that is open after them.
pub struct Finished {
    pub made: usize,
    pub scan: OpenScan,
}

// A scan that came back is taken apart.
fn spent_sampled(held: Held<SampledScan>) -> Fault
    ensures { result ≡ held.fault }
{
    let Held { scan, fault } = held;
    scan.spent();
    fault
}

fn spent_worked(held: Held<WorkedScan>) -> Fault
    ensures { result ≡ held.fault }
{
    let Held { scan, fault } = held;
    scan.spent();
    fault
}

// One call. A controller goes by its phase and not by the token, so a token is made here for each call that wants one, also out
// of turn.
fn make<I: Image>(controller: &mut Controller, image: &mut I, call: Call) -> Answer
    ensures program { controller.new.program ≡ controller.old.program }
    ensures words { Makes I.meaning I.becomes (by_words controller.old.program) call controller.old image.old result
        controller.new image.new }
    ensures chart { (c : Chart) → CompiledFrom c controller.old.program →
        Makes I.meaning I.becomes (by_chart c) call controller.old image.old result controller.new image.new }
{
    match call {
        Call::Sample => match controller.sample(image) {
            Ok(scan) => {
                scan.spent();
                Answer::Done
            }
            Err(fault) => Answer::Refused(fault),
        },
        Call::Work => match controller.work(SampledScan::opened(0)) {
            Ok((verdict, scan)) => {
                scan.spent();
                Answer::Found(verdict)
            }
            Err(held) => Answer::Refused(spent_sampled(held)),
        },
        Call::Deliver => match controller.deliver(image, WorkedScan::opened(0)) {
            Ok(outputs) => Answer::Delivered(outputs),
            Err(held) => Answer::Refused(spent_worked(held)),
        },
        Call::Abandon => match controller.abandon(WorkedScan::opened(0)) {
            Ok(()) => Answer::Done,
            Err(held) => Answer::Refused(spent_worked(held)),
        },
        Call::Restart => match controller.restart() {
            Ok(()) => Answer::Done,
            Err(fault) => Answer::Refused(fault),
        },
        Call::Advance => {
            image.advance();
            Answer::Done
        }
    }
}

// One call, written down.
fn enter<I: Image>(controller: &mut Controller, image: &mut I, call: Call, entry: &mut Entry)
    ensures program { controller.new.program ≡ controller.old.program }
    ensures words { Makes I.meaning I.becomes (by_words controller.old.program) call controller.old image.old
        entry.new.answer controller.new image.new }
    ensures chart { (c : Chart) → CompiledFrom c controller.old.program →
        Makes I.meaning I.becomes (by_chart c) call controller.old image.old entry.new.answer controller.new image.new }
    ensures active { entry.new.active ≡ controller.new.state.active }
{
    let answer = make(controller, image, call);
    *entry = Entry {
        answer,
        active: controller.state().active,
    };
}

// The scan that the controller has open.
fn open_scan(controller: &Controller) -> OpenScan
    ensures { result ≡ scan_in controller.now.phase }
{
    match controller.phase {
        Phase::Sampled(frame) => OpenScan::Sampled(SampledScan::opened(frame)),
        Phase::Worked(frame, _) => OpenScan::Worked(WorkedScan::opened(frame)),
        Phase::Idle | Phase::Halted => OpenScan::Nothing,
    }
}

/// Restarts the controller, makes as many of the calls as the log has room for, and writes each down. Nothing else is
/// asked of the image, and nothing is allocated. Refused with 21 (docs/controller.md).
pub fn campaign<I: Image>(
    controller: &mut Controller,
    image: &mut I,
    calls: &[Call],
    log: &mut [Entry],
) -> Result<Finished, Fault>
    ensures accepted { is_ok result ≡ not (scan_open (stage_of controller.old.phase)) }
    ensures refused { IfErr result (λ f. (f ≡ Fault.Controller ControllerFault.ScanOpen) × (controller.new ≡ controller.old)
        × (image.new ≡ image.old) × (log.new ≡ log.old)) }
    ensures count { IfOk result (λ f. f.made ≡ min (length calls.now) (length log.old)) }
    ensures scan { IfOk result (λ f. f.scan ≡ scan_in controller.new.phase) }
    ensures program { controller.new.program ≡ controller.old.program }
    ensures words { IfOk result (λ f. Campaign I.meaning I.becomes (by_words controller.old.program) image.old
        (take f.made calls.now) log.old log.new (standing controller.new (I.meaning image.new).outputs) image.new) }
    ensures chart { (c : Chart) → CompiledFrom c controller.old.program →
        IfOk result (λ f. Campaign I.meaning I.becomes (by_chart c) image.old
        (take f.made calls.now) log.old log.new (standing controller.new (I.meaning image.new).outputs) image.new) }
{
    controller.restart()?;
    let made = calls.len().min(log.len());
    for k in 0..made {
        enter(controller, image, calls[k], &mut log[k]);
    }
    Ok(Finished {
        made,
        scan: open_scan(controller),
    })
}
