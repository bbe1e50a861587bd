ghost use Rattle.std.specs.Prelude.{◌≡◌, ◌+◌, length, not, IfOk};
ghost use Rattle.std.specs.List.{filter};
ghost use Rattle.facet_set.specs.Change.{only_in};

use crate::Facets;
use simplex::{Memory, Simplices};
use std::alloc::Global;

/// What one complex has and another has not, and the other way round, each in increasing order.
#[derive(Debug, Drop)]
pub struct Change {
    /// The facets of the first complex alone.
    pub gone: Simplices,
    /// The facets of the second complex alone.
    pub come: Simplices,
}

impl Change {
    /// The number of facets that are gone or come.
    pub fn size(&self) -> usize
        ensures { result ≡ length self.now.gone + length self.now.come }
    {
        self.gone.as_slice().len() + self.come.as_slice().len()
    }
}

/// The facets of the first complex alone.
pub fn only_in(alloc: Global, first: &Facets, second: &Facets) -> Result<Simplices, Memory>
    ensures { IfOk result (λ l. l ≡ only_in first.now second.now) }
{
    let simplices = first
        .as_slice()
        .iter()
        .copied()
        .filter(|facet| !second.is_facet(facet))
        .collect(alloc)?;
    Ok(Simplices::from_vec(simplices))
}
