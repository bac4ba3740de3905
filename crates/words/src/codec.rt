//! From instructions to words and back.
ghost use Rattle.std.specs.Prelude.{◌≡◌, ℕ, ◌<◌, Some};
ghost use Rattle.words.specs.declared.instruction.Instruction.{Instruction as AnInstruction};
ghost use Rattle.words.specs.Words.{packed, operand_area, operand_number, operator_in, area_in, number_in, word_of};
ghost use Rattle.words.specs.Words.{admitted, encoded, operator_of, area_of, number_of, pairs, numbers, lawful};
ghost use Rattle.words.specs.Words.{operand_at, target_at, instruction_at, instruction_of, decoded};

use crate::instruction::{Instruction, Operand, Part, Target};

// What a word is made of. The format has numbers for operators and areas; `Instruction` is the enum of them.
#[derive(Clone, Copy, PartialEq, Eq, Debug)]
struct Fields {
    operator: u8,
    area: u8,
    number: u8,
}

impl Fields {
    #[inline(always)]
    fn new(operator: u8, area: u8, number: u8) -> Fields
        ensures { result ≡ record { operator = operator; area = area; number = number } }
    {
        Fields {
            operator,
            area,
            number,
        }
    }

    // The fields of a word, the lawful ones and the others.
    fn of(word: u32) -> Fields
        ensures { result
            ≡ record { operator = operator_of word; area = area_of word; number = number_of word } }
    {
        let area = (word >> 20) % 16;
        let number = (word >> 14) % 64;
        Fields::new((word >> 24) as u8, area as u8, number as u8)
    }

    #[inline(always)]
    fn word(self) -> u32
        requires operators { self.operator < 16 }
        requires areas { self.area < 16 }
        ensures { result ≡ packed self.operator self.area self.number }
    {
        (u32::from(self.operator) << 24)
            + (u32::from(self.area) << 20)
            + (u32::from(self.number) << 14)
    }

    // Whether the operator goes with the area in a part.
    fn may_pair(self, part: Part) -> bool
        ensures { result ≡ pairs part self.operator self.area }
    {
        let hold = matches!(part, Part::Hold);
        match self.operator {
            1..=6 => matches!(self.area, 1..=8),
            7..=10 => self.area == 0,
            11 => !hold && self.area == 7,
            12 if hold => self.area == 9,
            12 => matches!(self.area, 2 | 3),
            13 => !hold && matches!(self.area, 2 | 3),
            _ => false,
        }
    }

    // Whether the area has such a number.
    fn may_number(self) -> bool
        ensures { result ≡ numbers self.area self.number }
    {
        match self.area {
            0 | 6 => self.number == 0,
            _ => true,
        }
    }

    fn operand(self) -> Operand
        ensures { result ≡ operand_at self.area self.number }
    {
        match self.area {
            1 => Operand::Input(self.number),
            2 => Operand::Step(self.number),
            3 => Operand::Output(self.number),
            4 => Operand::Rise(self.number),
            5 => Operand::Fall(self.number),
            6 => Operand::Always,
            7 => Operand::Cleared(self.number),
            _ => Operand::Before(self.number),
        }
    }

    fn target(self) -> Target
        ensures { result ≡ target_at self.area self.number }
    {
        match self.area {
            2 => Target::Step(self.number),
            _ => Target::Output(self.number),
        }
    }

    // The instruction of a lawful word: nothing is tested again.
    fn instruction(self) -> Instruction
        ensures { result ≡ instruction_at self.operator self.area self.number }
    {
        match self.operator {
            1 => Instruction::Load(self.operand()),
            2 => Instruction::LoadNot(self.operand()),
            3 => Instruction::And(self.operand()),
            4 => Instruction::AndNot(self.operand()),
            5 => Instruction::Or(self.operand()),
            6 => Instruction::OrNot(self.operand()),
            7 => Instruction::AndOpen,
            8 => Instruction::OrOpen,
            9 => Instruction::Close,
            10 => Instruction::Not,
            11 => Instruction::Store(self.number),
            13 => Instruction::Reset(self.target()),
            _ if self.area == 9 => Instruction::Hold(self.number),
            _ => Instruction::Set(self.target()),
        }
    }
}

impl Operand {
    // The fields of an instruction that reads the operand.
    #[inline(always)]
    fn fields(self, operator: u8) -> Fields
        ensures value { result
            ≡ record { operator = operator; area = operand_area self; number = operand_number self } }
        ensures few { result.area < 16 }
    {
        let (area, number) = match self {
            Operand::Input(n) => (1, n),
            Operand::Step(n) => (2, n),
            Operand::Output(n) => (3, n),
            Operand::Rise(n) => (4, n),
            Operand::Fall(n) => (5, n),
            Operand::Always => (6, 0),
            Operand::Cleared(n) => (7, n),
            Operand::Before(n) => (8, n),
        };
        Fields::new(operator, area, number)
    }
}

impl Instruction {
    #[inline(always)]
    fn fields(self) -> Fields
        ensures value { result ≡ record { operator = operator_in self; area = area_in self; number = number_in self } }
        ensures operators { result.operator < 16 }
        ensures areas { result.area < 16 }
    {
        match self {
            Instruction::Load(x) => x.fields(1),
            Instruction::LoadNot(x) => x.fields(2),
            Instruction::And(x) => x.fields(3),
            Instruction::AndNot(x) => x.fields(4),
            Instruction::Or(x) => x.fields(5),
            Instruction::OrNot(x) => x.fields(6),
            Instruction::AndOpen => Fields::new(7, 0, 0),
            Instruction::OrOpen => Fields::new(8, 0, 0),
            Instruction::Close => Fields::new(9, 0, 0),
            Instruction::Not => Fields::new(10, 0, 0),
            Instruction::Store(n) => Fields::new(11, 7, n),
            Instruction::Set(t) => Operand::from(t).fields(12),
            Instruction::Reset(t) => Operand::from(t).fields(13),
            Instruction::Hold(n) => Fields::new(12, 9, n),
        }
    }

    // Whether the instruction may stand in a part, with the number that it has.
    fn is_admitted(self, part: Part) -> bool
        ensures { result ≡ admitted part self }
    {
        let hold = matches!(part, Part::Hold);
        let stands = match self {
            Instruction::Store(_) | Instruction::Set(_) | Instruction::Reset(_) => !hold,
            Instruction::Hold(_) => hold,
            _ => true,
        };
        stands && self.fields().number < 64
    }

    // The word of an instruction with any number, also above 63.
    #[inline(always)]
    pub(crate) fn word(self) -> u32
        ensures { result ≡ word_of self }
    {
        self.fields().word()
    }
}

/// The word of an instruction, or None where the part does not admit it with its number.
pub fn encode(part: Part, instruction: Instruction) -> Option<u32>
    ensures word { result ≡ encoded part instruction }
    ensures read_back { (w : ℕ) → result ≡ Some w → decoded part w ≡ Some instruction }
{
    instruction.is_admitted(part).then(|| instruction.word())
}

/// Whether a word is lawful in a part.
pub fn is_lawful(part: Part, word: u32) -> bool
    ensures { result ≡ lawful part word }
{
    let fields = Fields::of(word);
    word % 16384 == 0 && fields.may_pair(part) && fields.may_number()
}

/// The instruction of a lawful word, read without a test.
pub fn instruction(word: u32) -> Instruction
    ensures { result ≡ instruction_of word }
{
    Fields::of(word).instruction()
}

/// The instruction that a word stands for, or None where the word is not lawful in the part.
pub fn decode(part: Part, word: u32) -> Option<Instruction>
    ensures instruction { result ≡ decoded part word }
    ensures written_back { (i : AnInstruction) → result ≡ Some i → encoded part i ≡ Some word }
{
    is_lawful(part, word).then(|| instruction(word))
}
