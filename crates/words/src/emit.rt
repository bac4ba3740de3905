//! Emitting instructions to a word list.
ghost use Rattle.std.specs.Prelude.{◌≡◌, ℕ, List, [], ◌∷◌, ◌++◌, IfOk};
ghost use Rattle.words.specs.Words.{word_of};
ghost use Rattle.words.specs.Emitted.{kept_in, push as put, pushed, joined, Holds};

use crate::instruction::Instruction;
use crate::list::WordList;
use room::Reserved;
use std::alloc::{AllocError, Global};

impl WordList {
    /// An empty list, with room for 4,096 words.
    pub fn new(heap: Global) -> Result<WordList, AllocError>
        ensures { IfOk result (λ l. Holds l []) }
    {
        let words = Reserved::new(heap)?;
        Ok(WordList { words, more: false })
    }

    /// Empties the list.
    pub fn clear(&mut self)
        ensures { Holds self.new [] }
    {
        self.words.clear();
        self.more = false;
    }

    /// Puts the instruction's word behind the others, or notes that there was no room for it.
    #[inline(always)]
    #[tactic(auto, using(crate::proofs::Emitting::push_first_of), unfolding(crate::specs::Emitted::pushed))]
    pub fn push(&mut self, instruction: Instruction)
        ensures step { kept_in self.new ≡ pushed (kept_in self.old) (instruction ∷ []) }
        ensures first { (ws : List ℕ) → Holds self.old ws → Holds self.new (ws ++ word_of instruction ∷ []) }
    {
        self.put(instruction.word());
    }

    // Puts a word behind the others, or notes that there was no room for it.
    #[inline(always)]
    fn put(&mut self, word: u32)
        ensures { kept_in self.new ≡ put (kept_in self.old) word }
    {
        if self.words.push(word).is_err() {
            self.more = true;
        }
    }

    /// Puts the words of another list behind the others, as far as there is room for them.
    #[tactic(auto, using(std::proofs::lemmas::Grind::common_steps, crate::proofs::Emitting::joined_first))]
    pub fn append(&mut self, list: &WordList)
        ensures step { kept_in self.new ≡ joined (kept_in self.old) (kept_in list.now) }
        ensures first { (ws vs : List ℕ) → Holds self.old ws → Holds list.now vs → Holds self.new (ws ++ vs) }
    {
        for word in list.words() {
            self.put(*word);
        }
        self.more |= list.more;
    }

    /// The words.
    pub fn words(&self) -> &[u32]
        ensures { result.now ≡ (kept_in self.now).words }
    {
        self.words.as_slice()
    }

    /// Whether there were more.
    pub fn has_more(&self) -> bool
        ensures { result ≡ (kept_in self.now).more }
    {
        self.more
    }
}
