ghost use Rattle.std.specs.Prelude.{◌≡◌, false, IfOk, IsTrue};
ghost use Rattle.facet_set.specs.Complex.{is_face, stands_in};
ghost use Rattle.facet_set.specs.Facets.{IsFacets};
ghost use Rattle.facet_set.specs.Parts.{deletion};
ghost use Rattle.collapse_moves.specs.Collapses.{is_free, collapse, drop_face, add_face};

use facet_set::Facets;
use local_parts::{PartFault, deletion};
use simplex::{Memory, Simplex};
use std::alloc::Global;

/// The elementary collapse at a free face: all faces but it and the one face in which it lies properly (textbook).
#[tactic(auto, using(crate::proofs::CollapseLaws::collapses))]
pub fn collapse(alloc: Global, c: &Facets, s: &Simplex) -> Result<Facets, Memory>
    requires { IsTrue (is_free c.now s.now) }
    ensures { IfOk result (λ d. d ≡ collapse c.now s.now) }
{
    are_facets(c);
    deleted(alloc, c, s)
}

/// The complex of all faces but the facet (textbook). Without `[]` the complex `[[]]` is the void one.
#[tactic(auto, using(crate::proofs::CollapseLaws::droppings))]
pub fn drop_facet(alloc: Global, c: &Facets, f: &Simplex) -> Result<Facets, Memory>
    requires { IsTrue (stands_in c.now f.now) }
    ensures { IfOk result (λ d. d ≡ drop_face c.now f.now) }
{
    are_facets(c);
    deleted(alloc, c, f)
}

/// The complex of the facets and one simplex more, which is no face yet (textbook). Facets that lie in it are facets no
/// more.
pub fn add_facet(alloc: Global, c: &Facets, f: &Simplex) -> Result<Facets, Memory>
    requires { is_face c.now f.now ≡ false }
    ensures { IfOk result (λ d. d ≡ add_face c.now f.now) }
{
    let mut list = Vec::new(alloc);
    list.push(*f)?;
    list.extend_from_slice(c.as_slice())?;
    Facets::generated(alloc, &list)
}

// The complex of all faces that do not contain the face.
fn deleted(alloc: Global, c: &Facets, s: &Simplex) -> Result<Facets, Memory>
    requires { IsTrue (is_face c.now s.now) }
    ensures { IfOk result (λ d. d ≡ deletion c.now s.now) }
{
    match deletion(alloc, c, s) {
        Ok(rest) => Ok(rest),
        Err(PartFault::Memory) => Err(Memory),
        Err(PartFault::NotFace | PartFault::NotPure) => unreachable!(),
    }
}

// What the type says of a complex.
fn are_facets(c: &Facets)
    ensures { IsFacets c.now }
{
    let _facets = c.as_slice();
}
