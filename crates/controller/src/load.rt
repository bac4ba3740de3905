//! Loading a code file into the controller.
ghost use Rattle.std.specs.Prelude.{◌≡◌, ℕ, List, Ok as Accepted, OnOk, OnErr};
ghost use Rattle.compile.specs.Compiled.{compiled};
ghost use Rattle.evolution.specs.Agreement.{CompiledFrom};
ghost use Rattle.evolution.specs.Chart.{Chart};
ghost use Rattle.plain.specs.Behaviours.{by_words, by_chart};
ghost use Rattle.controller.specs.Standing.{stage_of};
ghost use Rattle.controller.specs.Calls.{fault_of, load_refusal, Loaded, LoadsText};

use crate::controller::Controller;
use crate::phase::{Request, Turn};
use faults::Fault;

impl Controller {
    /// Tests a code file, takes its program and begins with it. Refused with 21 (docs/controller.md), or with 14 to 19
    /// (docs/code-file.md) and all as it was.
    pub fn load(&mut self, bytes: &[u8]) -> Result<(), Fault>
        ensures fault { fault_of result ≡ load_refusal (stage_of self.old.phase) bytes.now }
        ensures loaded { OnOk result (Loaded bytes.now self.new) }
        ensures words { OnOk result (self.new.state ≡ (by_words self.new.program).begins) }
        ensures chart { (c : Chart) → CompiledFrom c self.new.program →
            OnOk result (self.new.state ≡ (by_chart c).begins) }
        ensures text { (text : List ℕ) (room : ℕ) → compiled text room ≡ Accepted bytes.now →
            LoadsText text (stage_of self.old.phase) result self.new }
        ensures refused { OnErr result (self.new ≡ self.old) }
    {
        let Turn::Enter(next) = self.judged(Request::Load)? else {
            unreachable!();
        };
        self.program.load(bytes)?;
        self.begin(next);
        Ok(())
    }
}
