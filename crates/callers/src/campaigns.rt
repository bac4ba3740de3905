//! What a campaign tells a caller, by its contract alone.
ghost use Rattle.std.specs.Prelude.{◌≡◌, ◌≤◌, ◌&&◌, not, if◌then◌else◌, length, is_ok, is_some, IfOk, IfSome, OnOk, OnErr};
ghost use Rattle.evolution.specs.Agreement.{CompiledFrom};
ghost use Rattle.evolution.specs.Chart.{Chart};
ghost use Rattle.plain.specs.Behaviours.{by_words, by_chart};
ghost use Rattle.plain.specs.Stages.{scan_open, phase_refusal};
ghost use Rattle.plain.specs.declared.calls.Call.TheVariants.{Restart};
ghost use Rattle.controller.specs.Standing.{stage_of};
ghost use Rattle.controller.specs.Calls.{fault_of};
ghost use Rattle.callers.specs.Scans.{FoundBy};
ghost use Rattle.callers.specs.Restarts.{restarted, begins, FoundIfLive};

use controller::campaign::{Finished, campaign};
use controller::closing::close;
use controller::controller::Controller;
use controller::scans::OpenScan;
use faults::Fault;
use image::Image;
use plain::calls::{Answer, Call, Entry};
use verdict::outcome::Verdict;

/// A campaign of no calls: the controller is restarted, and that is all.
pub fn no_call<I: Image>(
    controller: &mut Controller,
    image: &mut I,
    log: &mut [Entry],
) -> Result<(), Fault>
    ensures fault { fault_of result ≡ phase_refusal Restart (stage_of controller.old.phase) }
    ensures words { OnOk result (controller.new ≡ restarted (by_words controller.old.program) controller.old) }
    ensures chart { (c : Chart) → CompiledFrom c controller.old.program →
        OnOk result (controller.new ≡ restarted (by_chart c) controller.old) }
    ensures refused { OnErr result (controller.new ≡ controller.old) }
    ensures image { image.new ≡ image.old }
    ensures log { log.new ≡ log.old }
{
    let Finished { made: _, scan } = campaign(controller, image, &[], log)?;
    match scan {
        OpenScan::Nothing => Ok(()),
        _ => unreachable!(),
    }
}

// A campaign of a sample and a work, whose scan is then closed: what the work is answered.
fn answer_to_work<I: Image>(
    controller: &mut Controller,
    image: &mut I,
    log: &mut [Entry],
) -> Result<Answer, Fault>
    requires { 2 ≤ length log.old }
    ensures accepted { is_ok result ≡ not (scan_open (stage_of controller.old.phase)) }
    ensures words { IfOk result (FoundIfLive (by_words controller.old.program) controller.old (I.meaning image.old)) }
    ensures chart { (c : Chart) → CompiledFrom c controller.old.program →
        IfOk result (FoundIfLive (by_chart c) controller.old (I.meaning image.old)) }
    ensures controller { OnOk result (controller.new ≡ restarted (by_words controller.old.program) controller.old) }
    ensures refused { OnErr result (controller.new ≡ controller.old) }
    ensures image { I.meaning image.new ≡ I.meaning image.old }
{
    let calls = [Call::Sample, Call::Work];
    let Finished { made: _, scan } = campaign(controller, image, &calls, log)?;
    match close(controller, scan) {
        Ok(()) => Ok(log[1].answer),
        Err(_) => unreachable!(),
    }
}

/// The verdict on the frame that the image has now, from the start state and with no frame before it, by a campaign of two
/// calls. None, if a scan is open, the image is not live, or the log has no room for two entries. What the log then holds is
/// left open.
pub fn first_verdict<I: Image>(
    controller: &mut Controller,
    image: &mut I,
    log: &mut [Entry],
) -> Option<Verdict>
    ensures found { is_some result ≡ begins controller.old log.old && (I.meaning image.old).live }
    ensures words { IfSome result (FoundBy (by_words controller.old.program)
        (restarted (by_words controller.old.program) controller.old) (I.meaning image.old).inputs) }
    ensures chart { (c : Chart) → CompiledFrom c controller.old.program →
        IfSome result (FoundBy (by_chart c) (restarted (by_chart c) controller.old) (I.meaning image.old).inputs) }
    ensures controller { controller.new ≡ (if begins controller.old log.old
        then restarted (by_words controller.old.program) controller.old else controller.old) }
    ensures image { I.meaning image.new ≡ I.meaning image.old }
{
    if log.len() < 2 {
        return None;
    }
    match answer_to_work(controller, image, log) {
        Ok(Answer::Found(verdict)) => Some(verdict),
        _ => None,
    }
}
