//! From a chart text to a controller that runs it.
ghost use Rattle.std.specs.Prelude.{◌≡◌, OnOk, OnErr, length};
ghost use Rattle.controller.specs.Standing.{stage_of};
ghost use Rattle.controller.specs.Calls.{fault_of};
ghost use Rattle.running.specs.Texts.{BeginsWith, text_refusal};

use compile::compiler::Compiler;
use controller::controller::Controller;
use faults::Fault;

// Compiles a chart text into the buffer, loads the code file into the controller, and begins with it. What the buffer holds then
// is left open.
#[tactic(auto, using(crate::proofs::Loading::loaded_text))]
pub(crate) fn load_text(
    text: &[u8],
    compiler: &mut Compiler,
    buffer: &mut [u8],
    controller: &mut Controller,
) -> Result<(), Fault>
    ensures fault { fault_of result ≡ text_refusal text.now (length buffer.old) (stage_of controller.old.phase) }
    ensures loaded { OnOk result (BeginsWith text.now controller.new) }
    ensures refused { OnErr result (controller.new ≡ controller.old) }
{
    let length = compiler.compile(text, buffer)?;
    controller.load(&buffer[..length])
}
