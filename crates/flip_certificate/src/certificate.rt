ghost use Rattle.std.specs.Prelude.{◌≡◌};
ghost use Rattle.flip_certificate.specs.Lines.{kind_of};

use crate::{Blocks, Kind};
use facet_set::Facets;
use simplex::{Flips, Pairs};

/// A list of bistellar flips that shows what a complex is (Pachner; Bjorner and Lutz). It need not be valid.
#[derive(Debug, Drop)]
pub enum Certificate {
    /// The flips carry `start` to the boundary of a simplex.
    Sphere {
        start: Facets,
        flips: Flips,
    },
    /// The flips of `first`, the relabelling `map` and the flips of `second` carry `start` to `target`.
    Equivalent {
        start: Facets,
        target: Facets,
        first: Flips,
        map: Pairs,
        second: Flips,
    },
    /// The flips of each block carry the link of its vertex to the boundary of a simplex.
    Manifold {
        start: Facets,
        blocks: Blocks,
    },
}

impl Certificate {
    /// What it is of.
    pub fn kind(&self) -> Kind
        ensures { result ≡ kind_of self.now }
    {
        match self {
            Certificate::Sphere { .. } => Kind::Sphere,
            Certificate::Equivalent { .. } => Kind::Equivalent,
            Certificate::Manifold { .. } => Kind::Manifold,
        }
    }
}
