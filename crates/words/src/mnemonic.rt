//! Instructions as text, with the names of docs/words.md.
ghost use Rattle.std.specs.Prelude.{Some};
ghost use Rattle.words.specs.Mnemonics.{part_name, operand_text, target_text, instruction_text};

use crate::instruction::{Instruction, Operand, Part, Target};
use std::fmt;

impl fmt::Display for Part {
    ghost output = { λ x. Some (part_name x) };

    fn fmt<W: fmt::Write>(&self, f: &mut fmt::Formatter<W>) -> fmt::Result {
        match *self {
            Part::Clear => f.pad("clear"),
            Part::Enter => f.pad("enter"),
            Part::Hold => f.pad("hold"),
        }
    }
}

impl fmt::Display for Operand {
    ghost output = { λ x. Some (operand_text x) };

    fn fmt<W: fmt::Write>(&self, f: &mut fmt::Formatter<W>) -> fmt::Result {
        match *self {
            Operand::Input(n) => write!(f, "I{n}"),
            Operand::Step(n) => write!(f, "X{n}"),
            Operand::Output(n) => write!(f, "Q{n}"),
            Operand::Rise(n) => write!(f, "rise {n}"),
            Operand::Fall(n) => write!(f, "fall {n}"),
            Operand::Always => write!(f, "always on"),
            Operand::Cleared(n) => write!(f, "T{n}"),
            Operand::Before(n) => write!(f, "P{n}"),
        }
    }
}

impl fmt::Display for Target {
    ghost output = { λ x. Some (target_text x) };

    fn fmt<W: fmt::Write>(&self, f: &mut fmt::Formatter<W>) -> fmt::Result {
        match *self {
            Target::Step(n) => write!(f, "X{n}"),
            Target::Output(n) => write!(f, "Q{n}"),
        }
    }
}

impl fmt::Display for Instruction {
    ghost output = { λ x. Some (instruction_text x) };

    fn fmt<W: fmt::Write>(&self, f: &mut fmt::Formatter<W>) -> fmt::Result {
        match *self {
            Instruction::Load(x) => write!(f, "LD {x}"),
            Instruction::LoadNot(x) => write!(f, "LDN {x}"),
            Instruction::And(x) => write!(f, "AND {x}"),
            Instruction::AndNot(x) => write!(f, "ANDN {x}"),
            Instruction::Or(x) => write!(f, "OR {x}"),
            Instruction::OrNot(x) => write!(f, "ORN {x}"),
            Instruction::AndOpen => write!(f, "AND("),
            Instruction::OrOpen => write!(f, "OR("),
            Instruction::Close => write!(f, ")"),
            Instruction::Not => write!(f, "NOT"),
            Instruction::Store(n) => write!(f, "ST T{n}"),
            Instruction::Set(x) => write!(f, "S {x}"),
            Instruction::Reset(x) => write!(f, "R {x}"),
            Instruction::Hold(n) => write!(f, "S H{n}"),
        }
    }
}
