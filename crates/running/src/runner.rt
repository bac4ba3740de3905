//! A controller that is given its charts as texts.
ghost use Rattle.std.specs.Prelude.{◌≡◌, ℕ, false, min, length, take, IfOk, IfErr, OnOk, OnErr, vec_len};
ghost use Rattle.codefile.specs.Format.{longest_file};
ghost use Rattle.compile.specs.Laws.{ProgramOf};
ghost use Rattle.evolution.specs.Chart.{Chart};
ghost use Rattle.plain.specs.Behaviours.{by_chart};
ghost use Rattle.plain.specs.Campaigns.{Campaign};
ghost use Rattle.plain.specs.Charts.{Plain};
ghost use Rattle.plain.specs.Stages.{scan_open};
ghost use Rattle.controller.specs.Standing.{stage_of, standing, Fresh};
ghost use Rattle.controller.specs.Calls.{fault_of, open_scan};
ghost use Rattle.running.specs.Texts.{BeginsWith, ChartOf, text_refusal, NotTooShort};
ghost use Rattle.running.specs.Endings.{ended};

use crate::load::load_text;
use codefile::format::LONGEST_FILE;
use compile::compiler::Compiler;
use controller::campaign::{Finished, campaign};
use controller::closing::close;
use controller::controller::Controller;
use controller::scans::OpenScan;
use faults::Fault;
use image::Image;
use plain::calls::{Call, Entry};
use std::alloc::{AllocError, Global};

/// A controller, and what gives it a chart: a compiler, and room for the code file.
#[derive(Drop)]
pub struct Runner {
    pub controller: Controller,
    compiler: Compiler,
    file: Vec<u8>,
    ghost room: { vec_len file ≡ longest_file },
}

impl Runner {
    /// A runner with room for any chart, and none in its controller.
    pub fn new(heap: Global) -> Result<Runner, AllocError>
        ensures { IfOk result (λ r. Fresh r.controller) }
    {
        Ok(Runner {
            controller: Controller::new(heap)?,
            compiler: Compiler::new(heap)?,
            file: vec![in heap; 0u8; LONGEST_FILE]?,
        })
    }

    /// Compiles a chart text, loads its code file into the controller, and begins with it. Refused by the text, 1 to 12
    /// (docs/faults.md), or else with 21; then the controller is as it was.
    pub fn load(&mut self, text: &[u8]) -> Result<(), Fault>
        ensures fault { fault_of result ≡ text_refusal text.now longest_file (stage_of self.old.controller.phase) }
        ensures room { IfErr result NotTooShort }
        ensures loaded { OnOk result (BeginsWith text.now self.new.controller) }
        ensures refused { OnErr result (self.new.controller ≡ self.old.controller) }
    {
        load_text(
            text,
            &mut self.compiler,
            &mut self.file,
            &mut self.controller,
        )
    }

    /// Loads a chart text, and makes as many of the calls as the log has room for. Refused as `load` is, and then controller, image
    /// and log are as they were.
    pub fn campaign<I: Image>(
        &mut self,
        text: &[u8],
        image: &mut I,
        calls: &[Call],
        log: &mut [Entry],
    ) -> Result<Finished, Fault>
        ensures fault { fault_of result ≡ text_refusal text.now longest_file (stage_of self.old.controller.phase) }
        ensures room { IfErr result NotTooShort }
        ensures refused { OnErr result ((self.new.controller ≡ self.old.controller) × (image.new ≡ image.old) × (log.new ≡ log.old)) }
        ensures count { IfOk result (λ f. f.made ≡ min (length calls.now) (length log.old)) }
        ensures scan { IfOk result (λ f. f.scan ≡ open_scan self.new.controller.phase) }
        ensures program { OnOk result (ProgramOf text.now self.new.controller.program) }
        ensures chart { (c : Chart) → ChartOf text.now c → IfOk result (λ f. Campaign I.meaning I.becomes (by_chart c) image.old
            (take f.made calls.now) log.old log.new (standing self.new.controller (I.meaning image.new).outputs) image.new) }
    {
        self.load(text)?;
        campaign(&mut self.controller, image, calls, log)
    }

    // Drops the open scan.
    #[tactic(auto, using(crate::proofs::Ending::ended_as))]
    fn end(&mut self, scan: OpenScan)
        requires { scan ≡ open_scan self.old.controller.phase }
        ensures closed { scan_open (stage_of self.new.controller.phase) ≡ false }
        ensures program { self.new.controller.program ≡ self.old.controller.program }
        ensures ended { (outputs : ℕ) →
            standing self.new.controller outputs ≡ ended (standing self.old.controller outputs) }
    {
        match close(&mut self.controller, scan) {
            Ok(()) => {}
            Err(_) => unreachable!(),
        }
    }

    /// Makes the calls as `campaign` does, and then ends the scan that is still open. Answers how many calls it made. Refused as
    /// `campaign` is.
    pub fn run_calls<I: Image>(
        &mut self,
        text: &[u8],
        image: &mut I,
        calls: &[Call],
        log: &mut [Entry],
    ) -> Result<usize, Fault>
        ensures fault { fault_of result ≡ text_refusal text.now longest_file (stage_of self.old.controller.phase) }
        ensures room { IfErr result NotTooShort }
        ensures refused { OnErr result ((self.new.controller ≡ self.old.controller) × (image.new ≡ image.old) × (log.new ≡ log.old)) }
        ensures count { IfOk result (λ n. n ≡ min (length calls.now) (length log.old)) }
        ensures closed { OnOk result (scan_open (stage_of self.new.controller.phase) ≡ false) }
        ensures program { OnOk result (ProgramOf text.now self.new.controller.program) }
        ensures chart { (c : Chart) → ChartOf text.now c → IfOk result (λ n. (p : Plain) × (
            Campaign I.meaning I.becomes (by_chart c) image.old (take n calls.now) log.old log.new p image.new
            × (standing self.new.controller (I.meaning image.new).outputs ≡ ended p))) }
    {
        let Finished { made, scan } = self.campaign(text, image, calls, log)?;
        self.end(scan);
        Ok(made)
    }
}
