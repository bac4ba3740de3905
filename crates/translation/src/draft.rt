//! A draft of a chart's parts.
use words::list::WordList;

/// The initial steps and the words of the parts, as far as the lines are read. The resets and the sets go to the clear
/// part when the last line is read.
#[derive(Drop)]
pub struct Draft {
    pub(crate) initial: u64,
    pub(crate) clear: WordList,
    pub(crate) resets: WordList,
    pub(crate) sets: WordList,
    pub(crate) enter: WordList,
    pub(crate) hold: WordList,
}
