//! A program: the initial steps and three parts whose words are lawful.
ghost use Rattle.std.specs.Prelude.{◌≡◌, true};
ghost use Rattle.words.specs.declared.instruction.Part.TheVariants.{Clear as InClear, Enter as InEnter, Hold as InHold};
ghost use Rattle.words.specs.Brackets.{sound};

use room::Reserved;
use words::list::MOST_WORDS;

/// Each word is lawful in its part, each part's brackets balance with at most 17 open, and each part has room for any
/// file's words.
#[derive(Drop)]
pub struct Program {
    pub(crate) initial: u64,
    pub(crate) clear: Reserved<u32, MOST_WORDS>,
    pub(crate) enter: Reserved<u32, MOST_WORDS>,
    pub(crate) hold: Reserved<u32, MOST_WORDS>,
    ghost clears: { sound InClear 0 clear ≡ true },
    ghost enters: { sound InEnter 0 enter ≡ true },
    ghost holds: { sound InHold 0 hold ≡ true },
}
