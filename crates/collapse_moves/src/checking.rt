ghost use Rattle.std.specs.Prelude.{◌≡◌, ◌+◌, ◌&&◌, ◌==◌, not, length, Some, None, OnOk, IfOk, IfErr, IsTrue};
ghost use Rattle.simplex.specs.FirstFailing.{first_failing};
ghost use Rattle.simplex.specs.Simplex.{is_simplex};
ghost use Rattle.collapse_moves.specs.Collapses.{free_tests, partner};

use crate::FreeFault;
use crate::holder::{Holder, find_holder};
use facet_set::Facets;
use simplex::Simplex;

/// The one face in which a free face lies properly, or why the simplex is no free face (textbook). A free face lies in
/// one facet alone, which has one label more. It takes no memory, and passes over the facets once.
#[tactic(auto, using(crate::proofs::FreeLaws::first_faults))]
pub fn check_free(c: &Facets, s: &Simplex) -> Result<Simplex, FreeFault>
    ensures passed { OnOk result (first_failing (free_tests c.now s.now) ≡ None) }
    ensures value { IfOk result (λ t. partner c.now s.now ≡ Some t) }
    ensures faults { IfErr result (λ fault. first_failing (free_tests c.now s.now) ≡ Some fault) }
{
    match find_holder(c.as_slice(), s) {
        Holder::Missing => Err(FreeFault::NotFace),
        Holder::One(facet) => {
            if is_free_in(s, &facet) {
                Ok(facet)
            } else {
                Err(FreeFault::NotFree)
            }
        }
        Holder::Many => Err(FreeFault::NotFree),
    }
}

// Whether the simplex has a label, and the facet has one label more.
fn is_free_in(s: &Simplex, facet: &Simplex) -> bool
    ensures value { result ≡ (not (length s.now == 0) && (length s.now + 1 == length facet.now)) }
    ensures simplex { IsTrue (is_simplex s.now) }
{
    !s.is_empty() && s.len() + 1 == facet.len()
}
