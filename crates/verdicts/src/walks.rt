// The walks of verdicts.
ghost use Rattle.std.specs.Prelude.{◌≡◌, IfOk};
ghost use Rattle.verdicts.specs.Ready.{IsReady};
ghost use Rattle.verdicts.specs.Verdicts.{found, reached, meets};

use annealer::{Walked, walk};
use facet_set::Facets;
use flip_table::Session;
use simplex::Memory;
use std::alloc::Global;

// The walk from the complex.
pub fn walk_from(alloc: Global, c: &Facets, budget: u64, seed: u64) -> Result<Walked, Memory>
    requires { IsReady 1 c.now budget }
    ensures goal { IfOk result (λ r. r.session.present ≡ reached c.now budget seed) }
    ensures flips { IfOk result (λ r. r.flips ≡ found c.now budget seed) }
    ensures met { IfOk result (λ r. r.met ≡ meets c.now budget seed) }
{
    let session = Session::new(alloc, c)?;
    walk(alloc, session, seed, budget)
}
