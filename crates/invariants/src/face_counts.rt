// The numbers of faces of a complex.
ghost use Rattle.std.specs.Prelude.{◌≡◌, ◌≤◌, ◌↔◌, All, IfOk, IsTrue};
ghost use Rattle.facet_set.specs.Numbers.{f_vector, weight};
ghost use Rattle.face_vectors.specs.Counts.{numbers, IsWithinLimits};

use face_lattice::Lattice;
use face_vectors::{COUNT_LIMIT, Counts};
use facet_set::Facets;
use simplex::Memory;
use std::alloc::Global;

/// Whether the weight is within the limit of the numbers of faces, so that these are too.
pub fn is_within_limits(c: &Facets) -> bool
    ensures value { IsTrue result ↔ (weight c.now ≤ COUNT_LIMIT) }
    ensures counts { IsTrue result → All (λ n. n ≤ COUNT_LIMIT) (f_vector c.now) }
{
    c.weight() <= COUNT_LIMIT
}

/// The numbers of faces, from those of dimension 0 on.
pub fn face_counts(alloc: Global, c: &Facets) -> Result<Counts, Memory>
    requires { All (λ n. n ≤ COUNT_LIMIT) (f_vector c.now) }
    ensures numbers { IfOk result (λ counts. numbers counts ≡ f_vector c.now) }
    ensures limits { IfOk result IsWithinLimits }
{
    let lattice = Lattice::of(alloc, c)?;
    Ok(counts_by(&lattice, c))
}

// The same by the lattice of the complex.
fn counts_by(lattice: &Lattice, c: &Facets) -> Counts
    requires same { lattice.now.facets ≡ c.now }
    requires few { All (λ n. n ≤ COUNT_LIMIT) (f_vector c.now) }
    ensures numbers { numbers result ≡ f_vector c.now }
    ensures limits { IsWithinLimits result }
{
    let size = c.size();
    let mut at = [0; 12];
    for k in 0..size {
        at[k] = lattice.face_count(k + 1) as u64;
    }
    Counts { size, at }
}
