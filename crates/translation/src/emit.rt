//! The words of a line, emitted to the lists of a draft.
ghost use Rattle.std.specs.Prelude.{◌≡◌};
ghost use Rattle.words.specs.declared.instruction.Operand.TheVariants.{Cleared};
ghost use Rattle.words.specs.declared.instruction.Instruction.TheVariants.{Load};
ghost use Rattle.words.specs.Emitted.{kept_in, pushed};
ghost use Rattle.lines.specs.Parts.{numbers_in};
ghost use Rattle.translation.specs.Translation.{switches, newly, held};
ghost use Rattle.translation.specs.Translation.{switch as switched};

use lines::shape::Action;
use lines::steps::number_of;
use text::token::Token;
use words::instruction::{Instruction, Operand, Target};
use words::list::WordList;

fn switch(action: Action, target: Target) -> Instruction
    ensures { result ≡ switched action target }
{
    match action {
        Action::Set => Instruction::Set(target),
        Action::Reset => Instruction::Reset(target),
    }
}

fn load_cleared(transition: u8) -> Instruction
    ensures { result ≡ Load (Cleared transition) }
{
    Instruction::Load(Operand::Cleared(transition))
}

/// What a step does to an output when it becomes active.
pub(crate) fn entering(step: u8, action: Action, output: u8) -> [Instruction; 3]
    ensures { result ≡ newly step action output }
{
    [
        Instruction::Load(Operand::Step(step)),
        Instruction::AndNot(Operand::Before(step)),
        switch(action, Target::Output(output)),
    ]
}

/// That a step holds an output.
pub(crate) fn holding(step: u8, output: u8) -> [Instruction; 2]
    ensures { result ≡ held step output }
{
    [
        Instruction::Load(Operand::Step(step)),
        Instruction::Hold(output),
    ]
}

/// Emits the instructions.
pub(crate) fn emit_all(instructions: &[Instruction], out: &mut WordList)
    ensures { kept_in out.new ≡ pushed (kept_in out.old) instructions.now }
{
    for instruction in instructions {
        out.push(*instruction);
    }
}

/// Emits what a cleared transition does to the steps of a list.
pub(crate) fn emit_switches(action: Action, transition: u8, steps: &[Token], out: &mut WordList)
    ensures { kept_in out.new ≡ pushed (kept_in out.old) (switches action transition (numbers_in steps.now)) }
{
    out.push(load_cleared(transition));
    for token in steps {
        if let Some(step) = number_of(*token) {
            out.push(switch(action, Target::Step(step.value)));
        }
    }
}
