//! A list whose room is reserved once.
#![tactic(auto)]

ghost use Rattle.std.specs.Prelude.{◌≡◌, ◌<◌, ◌≤◌, List, [], ◌∷◌, ◌++◌, length, IfOk, IsErr, Ok as Taken, vec_capacity};

use std::alloc::{AllocError, Global};
use std::marker::Model;

/// A list of at most `N` items. Only making it can run out of memory.
#[derive(Drop)]
pub struct Reserved<T, const N: usize> {
    items: Vec<T>,
}

// Clauses see the items.
impl<T, const N: usize> Model for Reserved<T, N> {
    ghost Value = { List T };

    ghost view = { λ r. r.items.items };

    ghost invariant = { λ r. N ≤ vec_capacity r.items };
}

/// The list has as many items as it may have.
#[derive(Clone, Copy, PartialEq, Eq, Debug)]
pub struct Full;

impl<T: Copy + Drop, const N: usize> Reserved<T, N> {
    /// An empty list, with room for `N` items.
    pub fn new(heap: Global) -> Result<Self, AllocError>
        ensures { IfOk result (λ list. list ≡ []) }
    {
        let items = Vec::with_capacity(heap, N)?;
        Ok(Reserved { items })
    }

    /// Takes all items out.
    pub fn clear(&mut self)
        ensures { self.new ≡ [] }
    {
        self.items.clear();
    }

    /// Puts an item behind the others, if there is room for it.
    #[inline(always)]
    pub fn push(&mut self, item: T) -> Result<(), Full>
        ensures taken { length self.old < N → (result ≡ Taken tt) × (self.new ≡ self.old ++ item ∷ []) }
        ensures full { N ≤ length self.old → IsErr result × (self.new ≡ self.old) }
    {
        if self.items.len() < N {
            self.items.push_reserved(item);
            Ok(())
        } else {
            Err(Full)
        }
    }

    /// The items, in order.
    pub fn as_slice(&self) -> &[T]
        ensures { result.now ≡ self.now }
    {
        &self.items
    }
}
