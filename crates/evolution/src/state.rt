//! States.
ghost use Rattle.std.specs.Prelude.{◌≡◌, ◌==◌, ◌&&◌};
ghost use Rattle.std.proofs.Common.{rules};

use search::Same;

/// A state as two frames: the steps that are active, and the outputs that are stored.
#[derive(Clone, Copy, PartialEq, Eq, Debug)]
pub struct State {
    pub active: u64,
    pub stored: u64,
}

impl Same for State {
    ghost sameness = { λ x y. (x.active == y.active && x.stored == y.stored) };

    ghost equal = { Prim.search rules };

    ghost itself = { Prim.search rules };

    fn same(&self, other: &State) -> bool {
        self == other
    }
}
