//! A generic linear search: the least index of a value in a slice.
#![tactic(auto)]

ghost use Rattle.std.specs.Prelude.{◌≡◌, Bool, true, ◌==◌};
ghost use Rattle.search.specs.Earliest.{Earliest};
ghost use Rattle.std.proofs.Common.{rules};

/// A type whose values can be told apart: `same` is true of equal values, and of no others. It need not have a `==`.
pub trait Same {
    ghost sameness: { Self → Self → Bool };

    fn same(&self, other: &Self) -> bool
        ensures { result ≡ sameness self.now other.now };

    ghost equal: { (x y : Self) → sameness x y ≡ true → x ≡ y };

    ghost itself: { (x : Self) → sameness x x ≡ true };
}

/// The least index that holds an entry equal to `wanted`, or None where no entry is.
pub fn earliest<T: Same>(items: &[T], wanted: &T) -> Option<usize>
    ensures { Earliest items.now wanted.now result }
{
    items.iter().position(|item| item.same(wanted))
}

impl Same for u8 {
    ghost sameness = { λ x y. (x == y) };

    ghost equal = { Prim.search rules };

    ghost itself = { Prim.search rules };

    fn same(&self, other: &u8) -> bool {
        *self == *other
    }
}
