ghost use Rattle.std.specs.Prelude.{◌≡◌};
ghost use Rattle.morse_lists.specs.Morse.{is_critical};

use simplex::{Items, Simplex};

/// A step of a Morse list (Forman). Where the two are one facet, it is critical and goes alone; otherwise `low` is a free
/// face, and goes with `high`, the one face in which it lies properly.
#[derive(Clone, Copy, Debug, PartialEq, Eq)]
pub struct MorseStep {
    pub low: Simplex,
    pub high: Simplex,
}

/// Steps, one after another.
pub type MorseSteps = Items<MorseStep>;

impl MorseStep {
    /// Whether the two are one.
    pub fn is_critical(&self) -> bool
        ensures { result ≡ is_critical self.now }
    {
        self.low == self.high
    }
}
