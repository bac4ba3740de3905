//! A carriage that a controller drives. Its own rule tells where it stands.
ghost use Rattle.std.specs.Prelude.{◌≡◌, ◌≤◌, length, IfOk, OnOk, OnErr};
ghost use Rattle.evolution.specs.Agreement.{CompiledFrom};
ghost use Rattle.evolution.specs.Chart.{Chart};
ghost use Rattle.image.specs.Track.{sensors, moved};
ghost use Rattle.plain.specs.Behaviours.{by_words, by_chart};
ghost use Rattle.plain.specs.Stages.{phase_refusal};
ghost use Rattle.plain.specs.declared.calls.Call.TheVariants.{Sample, Restart};
ghost use Rattle.controller.specs.Standing.{stage_of};
ghost use Rattle.controller.specs.Calls.{fault_of};
ghost use Rattle.callers.specs.Restarts.{restarted, FoundAndDelivered};
ghost use Rattle.callers.specs.Scans.{Cycled};

use crate::cycles::cycle;
use controller::campaign::{Finished, campaign};
use controller::controller::Controller;
use controller::scans::OpenScan;
use faults::Fault;
use image::Image;
use image::carriage::Carriage;
use plain::calls::{Answer, Call, Entry};
use verdict::outcome::Verdict;

/// One scan, and its verdict. Then the carriage moves. Refused with 21 or 22 (docs/controller.md); then it stays where it is.
pub fn drive(controller: &mut Controller, carriage: &mut Carriage) -> Result<Verdict, Fault>
    ensures fault { fault_of result ≡ phase_refusal Sample (stage_of controller.old.phase) }
    ensures words { IfOk result (λ v. Cycled (by_words controller.old.program) controller.old (sensors carriage.old.position) v
        controller.new carriage.new.outputs) }
    ensures chart { (c : Chart) → CompiledFrom c controller.old.program →
        IfOk result (λ v. Cycled (by_chart c) controller.old (sensors carriage.old.position) v controller.new
        carriage.new.outputs) }
    ensures position { OnOk result (carriage.new.position ≡ moved carriage.new.outputs carriage.old.position) }
    ensures refused { OnErr result (controller.new ≡ controller.old) }
    ensures stands { OnErr result (carriage.new ≡ carriage.old) }
{
    let verdict = cycle(controller, carriage)?;
    carriage.advance();
    Ok(verdict)
}

// The first scan of a restarted controller, by a campaign of four calls: what the work is answered.
fn first_scan(
    controller: &mut Controller,
    carriage: &mut Carriage,
    log: &mut [Entry],
) -> Result<Answer, Fault>
    requires { 4 ≤ length log.old }
    ensures fault { fault_of result ≡ phase_refusal Restart (stage_of controller.old.phase) }
    ensures words { IfOk result (FoundAndDelivered (by_words controller.old.program) controller.old
        (sensors carriage.old.position) controller.new carriage.new.outputs) }
    ensures chart { (c : Chart) → CompiledFrom c controller.old.program →
        IfOk result (FoundAndDelivered (by_chart c) controller.old (sensors carriage.old.position) controller.new
        carriage.new.outputs) }
    ensures position { OnOk result (carriage.new.position ≡ moved carriage.new.outputs carriage.old.position) }
    ensures refused { OnErr result (controller.new ≡ controller.old) }
    ensures stands { OnErr result (carriage.new ≡ carriage.old) }
{
    let calls = [Call::Sample, Call::Work, Call::Deliver, Call::Advance];
    let Finished { made: _, scan } = campaign(controller, carriage, &calls, log)?;
    match scan {
        OpenScan::Nothing => Ok(log[1].answer),
        _ => unreachable!(),
    }
}

/// The first scan of a restarted controller, and its verdict. Then the carriage moves. Refused with 21 (docs/controller.md).
pub fn first_drive(controller: &mut Controller, carriage: &mut Carriage) -> Result<Verdict, Fault>
    ensures fault { fault_of result ≡ phase_refusal Restart (stage_of controller.old.phase) }
    ensures words { IfOk result (λ v. Cycled (by_words controller.old.program)
        (restarted (by_words controller.old.program) controller.old) (sensors carriage.old.position) v controller.new
        carriage.new.outputs) }
    ensures chart { (c : Chart) → CompiledFrom c controller.old.program →
        IfOk result (λ v. Cycled (by_chart c) (restarted (by_chart c) controller.old) (sensors carriage.old.position) v
        controller.new carriage.new.outputs) }
    ensures position { OnOk result (carriage.new.position ≡ moved carriage.new.outputs carriage.old.position) }
    ensures refused { OnErr result (controller.new ≡ controller.old) }
    ensures stands { OnErr result (carriage.new ≡ carriage.old) }
{
    let mut log = [Entry {
        answer: Answer::Done,
        active: 0,
    }; 4];
    match first_scan(controller, carriage, &mut log)? {
        Answer::Found(verdict) => Ok(verdict),
        _ => unreachable!(),
    }
}
