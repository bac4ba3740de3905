//! A search over entries that have no `==`.
ghost use Rattle.std.specs.Prelude.{◌≡◌, ◌==◌};
ghost use Rattle.std.proofs.Common.{rules};

use search::{Same, earliest};

// What a gauge reads. It has no `==`, and needs none to be searched for.
#[derive(Clone, Copy)]
struct Reading {
    level: u16,
}

impl Same for Reading {
    ghost sameness = { λ x y. (x.level == y.level) };

    ghost equal = { Prim.search rules };

    ghost itself = { Prim.search rules };

    fn same(&self, other: &Reading) -> bool {
        self.level == other.level
    }
}

#[test]
fn entries_without_equality_are_searched(rt: HostRuntime) {
    let readings = [
        Reading { level: 3 },
        Reading { level: 5 },
        Reading { level: 5 },
    ];
    assert_eq!(rt; earliest(&readings, &Reading { level: 5 }), Some(1));
    assert_eq!(rt; earliest(&readings, &Reading { level: 4 }), None);
}
