//! The scan task: scans over an image, one after the other.
ghost use Rattle.std.specs.Prelude.{◌≡◌, IfOk, OnErr};
ghost use Rattle.evolution.specs.Agreement.{CompiledFrom};
ghost use Rattle.evolution.specs.Chart.{Chart};
ghost use Rattle.plain.specs.Behaviours.{by_words, by_chart};
ghost use Rattle.plain.specs.Moments.{SampledInTurn};
ghost use Rattle.plain.specs.Stages.{refusal as why};
ghost use Rattle.plain.specs.declared.calls.Call.TheVariants.{Sample};
ghost use Rattle.controller.specs.Standing.{stage_of};
ghost use Rattle.controller.specs.Calls.{fault_of};
ghost use Rattle.callers.specs.Tasks.{Round, Ran};

use crate::cycles::cycle;
use controller::controller::Controller;
use faults::Fault;
use image::Image;
use verdict::outcome::Verdict;

/// How many scans were made, and why the next one was refused.
#[derive(Clone, Copy, PartialEq, Eq, Debug)]
pub struct Stopped {
    pub scans: usize,
    pub fault: Fault,
}

// One scan, and its verdict. Then the image goes on.
fn round<I: Image>(controller: &mut Controller, image: &mut I) -> Result<Verdict, Fault>
    ensures fault { fault_of result ≡ why Sample (stage_of controller.old.phase) (I.meaning image.old).live }
    ensures words { IfOk result (λ v. Round I.meaning I.becomes (by_words controller.old.program) controller.old image.old v
        controller.new image.new) }
    ensures chart { (c : Chart) → CompiledFrom c controller.old.program →
        IfOk result (λ v. Round I.meaning I.becomes (by_chart c) controller.old image.old v controller.new image.new) }
    ensures refused { OnErr result (controller.new ≡ controller.old) }
    ensures unchanged { OnErr result (I.meaning image.new ≡ I.meaning image.old) }
    ensures rule { OnErr result (SampledInTurn I.becomes (stage_of controller.old.phase) image.old image.new) }
{
    let verdict = cycle(controller, image)?;
    image.advance();
    Ok(verdict)
}

/// So many scans, each followed by an advance. It stops at the first that is refused: with 21 where a scan is open, with 22 behind
/// a scan that was not stable, and with 24 when the image is not live (docs/controller.md).
pub fn scan_task<I: Image>(
    controller: &mut Controller,
    image: &mut I,
    scans: usize,
) -> Result<(), Stopped>
    ensures words { Ran I.meaning I.becomes (by_words controller.old.program) scans controller.old image.old result
        controller.new image.new }
    ensures chart { (c : Chart) → CompiledFrom c controller.old.program →
        Ran I.meaning I.becomes (by_chart c) scans controller.old image.old result controller.new image.new }
{
    for made in 0..scans {
        if let Err(fault) = round(controller, image) {
            return Err(Stopped { scans: made, fault });
        }
    }
    Ok(())
}
