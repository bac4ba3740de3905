//! The controller's calls.
ghost use Rattle.std.specs.Prelude.{◌≡◌, ℕ, IfOk, IfErr, OnOk, OnErr};
ghost use Rattle.evolution.specs.Agreement.{CompiledFrom};
ghost use Rattle.evolution.specs.Chart.{Chart};
ghost use Rattle.image.specs.Meaning.{showing};
ghost use Rattle.plain.specs.Behaviours.{by_words, by_chart};
ghost use Rattle.plain.specs.Charts.{ComesTo, delivered_frame};
ghost use Rattle.plain.specs.Moments.{SampledInTurn, DeliveredInTurn};
ghost use Rattle.plain.specs.Stages.{out_of_turn, refusal as why, phase_refusal};
ghost use Rattle.plain.specs.declared.calls.Call.TheVariants as call;
ghost use Rattle.controller.specs.Standing.{stage_of};
ghost use Rattle.controller.specs.Calls.{fault_of, held_fault, turn_fault, judged_as, GoesOn, in_phase};
ghost use Rattle.controller.specs.Calls.{begun_from, WorkedAs, due, delivered, landed};
ghost use Rattle.controller.specs.Resting.{LeftAtRest};

use crate::controller::Controller;
use crate::phase::{Phase, Request, Turn};
use crate::scans::{Held, SampledScan, WorkedScan};
use evolution::state::State;
use faults::{ControllerFault, Fault};
use image::Image;
use verdict::outcome::{Outcome, Verdict};
use verdict::scan::scan;

// The phase that a delivery leaves.
fn phase_after(verdict: Verdict) -> Phase
    ensures { (s : State) (frame : ℕ) (c : Controller) → result ≡ (landed verdict s frame c).phase }
{
    match verdict {
        Verdict::Stable(_) => Phase::Idle,
        Verdict::Circling(..) | Verdict::Overlong => Phase::Halted,
    }
}

impl Controller {
    // What a request goes on with in this phase, or its refusal.
    pub(crate) fn judged(&self, request: Request) -> Result<Turn, ControllerFault>
        ensures fault { turn_fault result ≡ out_of_turn (judged_as request) (stage_of self.now.phase) }
        ensures turn { IfOk result (λ t. GoesOn t request self.now) }
    {
        match (self.phase, request) {
            (Phase::Idle, Request::Sample) => Ok(Turn::Sample),
            (Phase::Sampled(frame), Request::Work) => Ok(Turn::Work(frame)),
            (Phase::Worked(frame, outcome), Request::Deliver) => {
                Ok(Turn::Deliver(frame, outcome, phase_after(outcome.verdict)))
            }
            (Phase::Worked(..), Request::Abandon) => Ok(Turn::Enter(Phase::Idle)),
            (Phase::Idle | Phase::Halted, Request::Load | Request::Restart) => {
                Ok(Turn::Enter(Phase::Idle))
            }
            (Phase::Halted, Request::Sample) => Err(ControllerFault::Halted),
            (_, Request::Load | Request::Sample | Request::Restart) => {
                Err(ControllerFault::ScanOpen)
            }
            (_, Request::Work | Request::Deliver | Request::Abandon) => {
                Err(ControllerFault::WrongPhase)
            }
        }
    }

    /// Samples the image: its inputs are the frame of a new scan. Refused with 21, 22 or 24 (docs/controller.md).
    pub fn sample<I: Image>(&mut self, image: &mut I) -> Result<SampledScan, Fault>
        ensures fault { fault_of result ≡ why call.Sample (stage_of self.old.phase) (I.meaning image.old).live }
        ensures scan { IfOk result (λ s. s.frame ≡ (I.meaning image.old).inputs) }
        ensures controller { OnOk result (self.new ≡ in_phase (Phase.Sampled (I.meaning image.old).inputs) self.old) }
        ensures refused { OnErr result (self.new ≡ self.old) }
        ensures meaning { I.meaning image.new ≡ I.meaning image.old }
        ensures image { SampledInTurn I.becomes (stage_of self.old.phase) image.old image.new }
    {
        self.judged(Request::Sample)?;
        let frame = image.sample()?;
        self.phase = Phase::Sampled(frame);
        Ok(SampledScan::opened(frame))
    }

    // What a frame comes to.
    fn outcome_of(&self, frame: u64) -> Outcome
        ensures words { ComesTo (by_words self.now.program) self.now.state self.now.previous frame result }
        ensures chart { (c : Chart) → CompiledFrom c self.now.program →
            ComesTo (by_chart c) self.now.state self.now.previous frame result }
    {
        scan(&self.program, self.state, self.previous, frame)
    }

    // The open frame is worked.
    fn work_open(&mut self, frame: u64) -> Verdict
        requires { self.old.phase ≡ Phase.Sampled frame }
        ensures words { WorkedAs (by_words self.old.program) self.old.phase self.old result self.new }
        ensures chart { (c : Chart) → CompiledFrom c self.old.program →
            WorkedAs (by_chart c) self.old.phase self.old result self.new }
    {
        let outcome = self.outcome_of(frame);
        self.phase = Phase::Worked(frame, outcome);
        outcome.verdict
    }

    /// Works the open frame, and answers the verdict; nothing of it shows before the delivery. Refused with 23
    /// (docs/controller.md), and the token comes back.
    pub fn work(&mut self, scan: SampledScan) -> Result<(Verdict, WorkedScan), Held<SampledScan>>
        ensures fault { held_fault result ≡ phase_refusal call.Work (stage_of self.old.phase) }
        ensures words { IfOk result (λ r. WorkedAs (by_words self.old.program) self.old.phase self.old r.0 self.new) }
        ensures chart { (c : Chart) → CompiledFrom c self.old.program →
            IfOk result (λ r. WorkedAs (by_chart c) self.old.phase self.old r.0 self.new) }
        ensures scan { IfOk result (λ r. r.1.frame ≡ scan.frame) }
        ensures refused { IfErr result (λ h. (self.new ≡ self.old) × (h.scan ≡ scan)) }
    {
        match self.judged(Request::Work) {
            Ok(Turn::Work(frame)) => {
                let verdict = self.work_open(frame);
                Ok((verdict, WorkedScan::opened(scan.spent())))
            }
            Ok(_) => unreachable!(),
            Err(fault) => Err(Held {
                scan,
                fault: Fault::from(fault),
            }),
        }
    }

    // The frame that the delivery of this outcome brings to the image.
    fn brought(&self, frame: u64, outcome: Outcome) -> u64
        ensures words { result ≡ delivered_frame (by_words self.now.program) frame outcome }
        ensures chart { (c : Chart) → CompiledFrom c self.now.program →
            result ≡ delivered_frame (by_chart c) frame outcome }
    {
        match outcome.verdict {
            Verdict::Stable(_) => outcome.state.outputs(&self.program, frame),
            Verdict::Circling(..) | Verdict::Overlong => 0,
        }
    }

    // The frame that the delivery of the open scan brings. Its outcome is still what the frame comes to.
    fn due(&self, frame: u64, outcome: Outcome) -> u64
        requires { self.now.phase ≡ Phase.Worked frame outcome }
        ensures words { result ≡ delivered_frame (by_words self.now.program) frame outcome }
        ensures chart { (c : Chart) → CompiledFrom c self.now.program →
            result ≡ delivered_frame (by_chart c) frame outcome }
        ensures comes { ComesTo (by_words self.now.program) self.now.state self.now.previous frame outcome }
        ensures chart_comes { (c : Chart) → CompiledFrom c self.now.program →
            ComesTo (by_chart c) self.now.state self.now.previous frame outcome }
    {
        // read, so that the proof has its range
        let _active = self.state.active;
        self.brought(frame, outcome)
    }

    // A scan has been delivered.
    fn land(&mut self, frame: u64, outcome: Outcome, next: Phase)
        requires { next ≡ (landed outcome.verdict outcome.state frame self.old).phase }
        ensures { self.new ≡ landed outcome.verdict outcome.state frame self.old }
    {
        self.phase = next;
        if let Verdict::Stable(_) = outcome.verdict {
            self.state = outcome.state;
            self.previous = Some(frame);
        }
    }

    /// Delivers the open scan, and answers the frame that the image was given: the output frame of the state in which it rests, or
    /// 0, and then the controller is halted. Refused with 23 or 24 (docs/controller.md), and the token comes back.
    pub fn deliver<I: Image>(
        &mut self,
        image: &mut I,
        scan: WorkedScan,
    ) -> Result<u64, Held<WorkedScan>>
        ensures fault { held_fault result ≡ why call.Deliver (stage_of self.old.phase) (I.meaning image.old).live }
        ensures words { IfOk result (λ frame. frame ≡ due (by_words self.old.program) self.old.phase) }
        ensures chart { (c : Chart) → CompiledFrom c self.old.program →
            IfOk result (λ frame. frame ≡ due (by_chart c) self.old.phase) }
        ensures rests { OnOk result
            (LeftAtRest (by_words self.old.program) self.old.phase self.new (I.meaning image.new).outputs) }
        ensures chart_rests { (c : Chart) → CompiledFrom c self.old.program →
            OnOk result (LeftAtRest (by_chart c) self.old.phase self.new (I.meaning image.new).outputs) }
        ensures controller { OnOk result (self.new ≡ delivered self.old.phase self.old) }
        ensures refused { IfErr result (λ h. (self.new ≡ self.old) × (h.scan ≡ scan)) }
        ensures shown { IfOk result (λ frame. I.meaning image.new ≡ showing frame (I.meaning image.old)) }
        ensures unchanged { OnErr result (I.meaning image.new ≡ I.meaning image.old) }
        ensures image_by_words { DeliveredInTurn I.becomes (by_words self.old.program) (stage_of self.old.phase) image.old image.new }
        ensures image_by_chart { (c : Chart) → CompiledFrom c self.old.program →
            DeliveredInTurn I.becomes (by_chart c) (stage_of self.old.phase) image.old image.new }
    {
        let (frame, outcome, next) = match self.judged(Request::Deliver) {
            Ok(Turn::Deliver(frame, outcome, next)) => (frame, outcome, next),
            Ok(_) => unreachable!(),
            Err(fault) => {
                return Err(Held {
                    scan,
                    fault: Fault::from(fault),
                });
            }
        };
        let outputs = self.due(frame, outcome);
        if let Err(fault) = image.deliver(outputs) {
            return Err(Held {
                scan,
                fault: Fault::from(fault),
            });
        }
        scan.spent();
        self.land(frame, outcome, next);
        Ok(outputs)
    }

    /// Drops the open scan, of which nothing is left in the controller. Refused with 23 (docs/controller.md), and the token comes
    /// back.
    pub fn abandon(&mut self, scan: WorkedScan) -> Result<(), Held<WorkedScan>>
        ensures fault { held_fault result ≡ phase_refusal call.Abandon (stage_of self.old.phase) }
        ensures controller { OnOk result (self.new ≡ in_phase Phase.Idle self.old) }
        ensures refused { IfErr result (λ h. (self.new ≡ self.old) × (h.scan ≡ scan)) }
    {
        match self.judged(Request::Abandon) {
            Ok(Turn::Enter(next)) => self.phase = next,
            Ok(_) => unreachable!(),
            Err(fault) => {
                return Err(Held {
                    scan,
                    fault: Fault::from(fault),
                });
            }
        }
        scan.spent();
        Ok(())
    }

    // In this phase, in the program's start state, before any frame.
    pub(crate) fn begin(&mut self, next: Phase)
        requires { next ≡ Phase.Idle }
        ensures words { self.new ≡ begun_from (by_words self.old.program).begins self.old }
        ensures chart { (c : Chart) → CompiledFrom c self.old.program →
            self.new ≡ begun_from (by_chart c).begins self.old }
    {
        self.state = State::start(&self.program);
        self.previous = None;
        self.phase = next;
    }

    /// Begins the program anew: its start state, and no previous frame. Refused with 21 (docs/controller.md).
    pub fn restart(&mut self) -> Result<(), Fault>
        ensures fault { fault_of result ≡ phase_refusal call.Restart (stage_of self.old.phase) }
        ensures words { OnOk result (self.new ≡ begun_from (by_words self.old.program).begins self.old) }
        ensures chart { (c : Chart) → CompiledFrom c self.old.program →
            OnOk result (self.new ≡ begun_from (by_chart c).begins self.old) }
        ensures refused { OnErr result (self.new ≡ self.old) }
    {
        let Turn::Enter(next) = self.judged(Request::Restart)? else {
            unreachable!();
        };
        self.begin(next);
        Ok(())
    }
}
