//! A set of numbers.
ghost use Rattle.std.specs.Prelude.{◌≡◌, ℕ, true, ◌||◌, IfOk, ◌==◌};
ghost use Rattle.chart.specs.Numbers.{distinct};

use room::Reserved;
use search::earliest;
use std::alloc::{AllocError, Global};

/// The numbers, each once, with room for all that there are.
// A list that is searched, and not marks as in `table`: one generic search serves these faults (docs/DECISIONS.md, Forms).
#[derive(Drop)]
pub struct NumberSet {
    pub(crate) numbers: Reserved<u8, 256>,
    ghost apart: { distinct numbers ≡ true },
}

impl NumberSet {
    ghost use Rattle.chart.specs.Sets.{holds, Empty};

    /// An empty set.
    pub(crate) fn new(heap: Global) -> Result<NumberSet, AllocError>
        ensures { IfOk result (λ s. Empty s) }
    {
        let numbers = Reserved::new(heap)?;
        Ok(NumberSet { numbers })
    }

    /// Takes all numbers out.
    pub(crate) fn clear(&mut self)
        ensures { Empty self.new }
    {
        self.numbers.clear();
    }

    /// Whether the number is in the set.
    pub(crate) fn has(&self, n: u8) -> bool
        ensures { result ≡ holds self.now n }
    {
        earliest(self.numbers.as_slice(), &n).is_some()
    }

    /// Puts a number in, and says whether it was there.
    pub(crate) fn add(&mut self, n: u8) -> bool
        ensures was_there { result ≡ holds self.old n }
        ensures numbers { (m : ℕ) → holds self.new m ≡ (m == n || holds self.old m) }
    {
        if self.has(n) {
            return true;
        }
        self.numbers.push(n).unwrap();
        false
    }
}
