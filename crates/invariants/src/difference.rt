ghost use Rattle.std.specs.Prelude.{◌≡◌, ◌↔◌, None};
ghost use Rattle.invariants.specs.Invariants.{first_difference};

use crate::Invariants;

/// An invariant in which two complexes differ, with its two values.
#[derive(Clone, Copy, Debug, PartialEq, Eq)]
pub enum Difference {
    Dim { left: i32, right: i32 },
    Closed { left: bool, right: bool },
    Euler { left: i64, right: i64 },
    Components { left: u64, right: u64 },
}

/// The first of dimension, closedness, Euler characteristic and number of components that differs. None exactly where
/// none does.
pub fn first_difference(x: &Invariants, y: &Invariants) -> Option<Difference>
    ensures value { result ≡ first_difference x.now y.now }
    ensures none { (result ≡ None) ↔ (x.now ≡ y.now) }
{
    let (x, y) = (*x, *y);
    if x.dim != y.dim {
        Some(Difference::Dim {
            left: x.dim,
            right: y.dim,
        })
    } else if x.closed != y.closed {
        Some(Difference::Closed {
            left: x.closed,
            right: y.closed,
        })
    } else if x.euler != y.euler {
        Some(Difference::Euler {
            left: x.euler,
            right: y.euler,
        })
    } else if x.components != y.components {
        Some(Difference::Components {
            left: x.components,
            right: y.components,
        })
    } else {
        None
    }
}
