//! The end of a worked scan.
ghost use Rattle.std.specs.Prelude.{◌≡◌, if◌then◌else◌, is_some, IfSome, IfNone, IfOk, IfErr, OnOk, OnErr};
ghost use Rattle.evolution.specs.Agreement.{CompiledFrom};
ghost use Rattle.evolution.specs.Chart.{Chart};
ghost use Rattle.image.specs.Meaning.{showing};
ghost use Rattle.plain.specs.Behaviours.{by_words, by_chart};
ghost use Rattle.plain.specs.Moments.{DeliveredInTurn};
ghost use Rattle.plain.specs.Stages.{phase_refusal};
ghost use Rattle.plain.specs.declared.calls.Call.TheVariants.{Deliver};
ghost use Rattle.controller.specs.Standing.{stage_of};
ghost use Rattle.controller.specs.Calls.{held_fault, due, in_phase, delivered as landed_as};
ghost use Rattle.controller.specs.Resting.{LeftAtRest};
ghost use Rattle.controller.specs.declared.phase.Phase.TheVariants.{Idle};

use controller::controller::Controller;
use controller::scans::{Held, WorkedScan};
use faults::Fault;
use image::Image;

/// Delivers a worked scan, and answers the frame; over an image that is not live any more, drops the scan: None. Refused with 23
/// (docs/controller.md), and the token comes back.
pub fn deliver_or_abandon<I: Image>(
    controller: &mut Controller,
    image: &mut I,
    scan: WorkedScan,
) -> Result<Option<u64>, Held<WorkedScan>>
    ensures fault { held_fault result ≡ phase_refusal Deliver (stage_of controller.old.phase) }
    ensures delivered { IfOk result (λ frame. is_some frame ≡ (I.meaning image.old).live) }
    ensures words { IfOk result (λ r. IfSome r (λ frame. frame ≡ due (by_words controller.old.program) controller.old.phase)) }
    ensures chart { (c : Chart) → CompiledFrom c controller.old.program →
        IfOk result (λ r. IfSome r (λ frame. frame ≡ due (by_chart c) controller.old.phase)) }
    ensures controller { OnOk result (controller.new ≡ (if (I.meaning image.old).live
        then landed_as controller.old.phase controller.old else in_phase Idle controller.old)) }
    ensures rests { IfOk result (λ r. IfSome r (λ _. LeftAtRest (by_words controller.old.program) controller.old.phase
        controller.new (I.meaning image.new).outputs)) }
    ensures chart_rests { (c : Chart) → CompiledFrom c controller.old.program →
        IfOk result (λ r. IfSome r (λ _. LeftAtRest (by_chart c) controller.old.phase controller.new
        (I.meaning image.new).outputs)) }
    ensures refused { IfErr result (λ h. (controller.new ≡ controller.old) × (h.scan ≡ scan)) }
    ensures shown { IfOk result (λ r. IfSome r (λ frame. I.meaning image.new ≡ showing frame (I.meaning image.old))) }
    ensures unchanged { IfOk result (λ r. IfNone r (I.meaning image.new ≡ I.meaning image.old)) }
    ensures unchanged_refused { OnErr result (I.meaning image.new ≡ I.meaning image.old) }
    ensures rule_by_words { DeliveredInTurn I.becomes (by_words controller.old.program) (stage_of controller.old.phase) image.old
        image.new }
    ensures rule_by_chart { (c : Chart) → CompiledFrom c controller.old.program →
        DeliveredInTurn I.becomes (by_chart c) (stage_of controller.old.phase) image.old image.new }
{
    match controller.deliver(image, scan) {
        Ok(frame) => Ok(Some(frame)),
        Err(
            Held {
                scan,
                fault: Fault::Image(_),
            },
        ) => match controller.abandon(scan) {
            Ok(()) => Ok(None),
            Err(_) => unreachable!(),
        },
        Err(held) => Err(held),
    }
}
