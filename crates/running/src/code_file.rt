//! A controller that is given the code file of a chart, wherever that was compiled.
ghost use Rattle.std.specs.Prelude.{◌≡◌, List, ℕ, Ok as Accepted, min, length, take, IfOk, OnOk, OnErr};
ghost use Rattle.codefile.specs.File.{code_of};
ghost use Rattle.codefile.specs.Loads.{code_in};
ghost use Rattle.compile.specs.Compiled.{compiled};
ghost use Rattle.evolution.specs.Chart.{Chart};
ghost use Rattle.plain.specs.Behaviours.{by_words, by_chart};
ghost use Rattle.plain.specs.Campaigns.{Campaign};
ghost use Rattle.controller.specs.Standing.{stage_of, standing};
ghost use Rattle.controller.specs.Calls.{fault_of, load_refusal, LoadsText, open_scan};
ghost use Rattle.running.specs.Texts.{ChartOf};

use controller::campaign::{Finished, campaign};
use controller::controller::Controller;
use faults::Fault;
use image::Image;
use plain::calls::{Call, Entry};

/// Loads a code file, and makes as many of the calls as the log has room for. Refused with 21 or by the file, and then nothing
/// is altered (docs/controller.md, docs/code-file.md).
pub fn campaign_of_file<I: Image>(
    controller: &mut Controller,
    file: &[u8],
    image: &mut I,
    calls: &[Call],
    log: &mut [Entry],
) -> Result<Finished, Fault>
    ensures fault { fault_of result ≡ load_refusal (stage_of controller.old.phase) file.now }
    ensures refused { OnErr result ((controller.new ≡ controller.old) × (image.new ≡ image.old) × (log.new ≡ log.old)) }
    ensures count { IfOk result (λ f. f.made ≡ min (length calls.now) (length log.old)) }
    ensures scan { IfOk result (λ f. f.scan ≡ open_scan controller.new.phase) }
    ensures program { OnOk result (code_of file.now ≡ Accepted (code_in controller.new.program)) }
    ensures words { IfOk result (λ f. Campaign I.meaning I.becomes (by_words controller.new.program) image.old
        (take f.made calls.now) log.old log.new (standing controller.new (I.meaning image.new).outputs) image.new) }
    ensures text { (text : List ℕ) (room : ℕ) → compiled text room ≡ Accepted file.now →
        LoadsText text (stage_of controller.old.phase) result controller.new }
    ensures chart { (text : List ℕ) (room : ℕ) (c : Chart) → compiled text room ≡ Accepted file.now → ChartOf text c →
        IfOk result (λ f. Campaign I.meaning I.becomes (by_chart c) image.old
        (take f.made calls.now) log.old log.new (standing controller.new (I.meaning image.new).outputs) image.new) }
{
    controller.load(file)?;
    campaign(controller, image, calls, log)
}
