//! A scan from its sample to its end.
ghost use Rattle.std.specs.Prelude.{◌≡◌, IfOk, OnOk, OnErr};
ghost use Rattle.evolution.specs.Agreement.{CompiledFrom};
ghost use Rattle.evolution.specs.Chart.{Chart};
ghost use Rattle.plain.specs.Behaviours.{by_words, by_chart};
ghost use Rattle.plain.specs.Moments.{SameInputs, SampledInTurn};
ghost use Rattle.plain.specs.Stages.{refusal as why};
ghost use Rattle.plain.specs.declared.calls.Call.TheVariants.{Sample};
ghost use Rattle.controller.specs.Standing.{stage_of};
ghost use Rattle.controller.specs.Calls.{fault_of};
ghost use Rattle.callers.specs.Scans.{FoundBy, Opened, Cycled, Answering};

use controller::controller::Controller;
use controller::scans::WorkedScan;
use faults::Fault;
use image::Image;
use verdict::outcome::Verdict;

// A frame is sampled and worked.
fn begin<I: Image>(
    controller: &mut Controller,
    image: &mut I,
) -> Result<(Verdict, WorkedScan), Fault>
    ensures fault { fault_of result ≡ why Sample (stage_of controller.old.phase) (I.meaning image.old).live }
    ensures words { IfOk result (λ r. Opened (by_words controller.old.program) controller.old (I.meaning image.old).inputs r.0
        controller.new) }
    ensures chart { (c : Chart) → CompiledFrom c controller.old.program →
        IfOk result (λ r. Opened (by_chart c) controller.old (I.meaning image.old).inputs r.0 controller.new) }
    ensures refused { OnErr result (controller.new ≡ controller.old) }
    ensures image { I.meaning image.new ≡ I.meaning image.old }
    ensures rule { SampledInTurn I.becomes (stage_of controller.old.phase) image.old image.new }
{
    let sampled = controller.sample(image)?;
    match controller.work(sampled) {
        Ok(found) => Ok(found),
        Err(_) => unreachable!(),
    }
}

/// The verdict on the frame that the image has now; the scan is dropped, and the controller stays as it is. Refused as sample is,
/// with 21, 22 or 24 (docs/controller.md).
pub fn glance<I: Image>(controller: &mut Controller, image: &mut I) -> Result<Verdict, Fault>
    ensures fault { fault_of result ≡ why Sample (stage_of controller.old.phase) (I.meaning image.old).live }
    ensures words { IfOk result (FoundBy (by_words controller.old.program) controller.old (I.meaning image.old).inputs) }
    ensures chart { (c : Chart) → CompiledFrom c controller.old.program →
        IfOk result (FoundBy (by_chart c) controller.old (I.meaning image.old).inputs) }
    ensures controller { controller.new ≡ controller.old }
    ensures image { I.meaning image.new ≡ I.meaning image.old }
    ensures rule { SampledInTurn I.becomes (stage_of controller.old.phase) image.old image.new }
{
    let (verdict, scan) = begin(controller, image)?;
    match controller.abandon(scan) {
        Ok(()) => Ok(verdict),
        Err(_) => unreachable!(),
    }
}

/// One scan, and its verdict: an image that was live when it was sampled takes the delivery. Refused as sample is, with 21, 22 or
/// 24 (docs/controller.md), and then controller and image are as they were.
pub fn cycle<I: Image>(controller: &mut Controller, image: &mut I) -> Result<Verdict, Fault>
    ensures fault { fault_of result ≡ why Sample (stage_of controller.old.phase) (I.meaning image.old).live }
    ensures words { IfOk result (λ v. Cycled (by_words controller.old.program) controller.old (I.meaning image.old).inputs v
        controller.new (I.meaning image.new).outputs) }
    ensures chart { (c : Chart) → CompiledFrom c controller.old.program →
        IfOk result (λ v. Cycled (by_chart c) controller.old (I.meaning image.old).inputs v controller.new
        (I.meaning image.new).outputs) }
    ensures refused { OnErr result (controller.new ≡ controller.old) }
    ensures image { SameInputs (I.meaning image.old) (I.meaning image.new) }
    ensures unchanged { OnErr result (I.meaning image.new ≡ I.meaning image.old) }
    ensures rule { OnOk result (Answering I.becomes (I.meaning image.new).outputs image.old image.new) }
    ensures refused_rule { OnErr result (SampledInTurn I.becomes (stage_of controller.old.phase) image.old image.new) }
{
    let (verdict, scan) = begin(controller, image)?;
    match controller.deliver(image, scan) {
        Ok(_) => Ok(verdict),
        Err(_) => unreachable!(),
    }
}
