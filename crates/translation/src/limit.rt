//! What a draft comes to.
ghost use Rattle.std.specs.Prelude.{◌≡◌, true, false, List, MatchOption};
ghost use Rattle.words.specs.Emitted.{kept_in};
ghost use Rattle.lines.specs.Grammar.{Tree};
ghost use Rattle.translation.specs.Drafts.{Drafted};
ghost use Rattle.translation.specs.Limits.{Offers};

use crate::draft::Draft;
use codefile::write::Contents;
use words::list::WordList;

// The words of a list, if there were no more.
fn all_of(list: &WordList) -> Option<&[u32]>
    ensures { MatchOption result
        ((kept_in list.now).more ≡ true)
        (λ w. ((kept_in list.now).more ≡ false) × (w.now ≡ (kept_in list.now).words)) }
{
    (!list.has_more()).then(|| list.words())
}

impl Draft {
    /// What the draft of a text comes to, or None if one of its parts alone exceeds 4,096 words.
    pub fn contents(&self) -> Option<Contents<'_>>
        ensures { (lines : List Tree) → Drafted lines self.now → Offers lines result }
    {
        let clear = all_of(&self.clear)?;
        let enter = all_of(&self.enter)?;
        let hold = all_of(&self.hold)?;
        let initial = self.initial;
        Some(Contents {
            initial,
            clear,
            enter,
            hold,
        })
    }
}
