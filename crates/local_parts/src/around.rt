// What lies around a face.
ghost use Rattle.std.specs.Prelude.{◌≡◌, ◌↔◌, ◌⊎◌, false, Err, IfOk, IfErr};
ghost use Rattle.facet_set.specs.Complex.{is_face};
ghost use Rattle.facet_set.specs.Parts.{star, link, deletion};
ghost use Rattle.local_parts.specs.declared.part_fault.PartFault.TheVariants as fault;

use crate::PartFault;
use crate::pieces::{deletion_pieces, facets_with, link_pieces};
use facet_set::Facets;
use simplex::{Memory, Simplex};
use std::alloc::Global;

/// The complex of the facets that contain the face.
pub fn star(alloc: Global, c: &Facets, a: &Simplex) -> Result<Facets, PartFault>
    ensures value { IfOk result (λ d. d ≡ star c.now a.now) }
    ensures not_face { (result ≡ Err fault.NotFace) ↔ (is_face c.now a.now ≡ false) }
    ensures faults { IfErr result (λ e. (e ≡ fault.NotFace) ⊎ (e ≡ fault.Memory)) }
{
    if !c.has_face(a) {
        return Err(PartFault::NotFace);
    }
    Ok(star_of(alloc, c, a)?)
}

fn star_of(alloc: Global, c: &Facets, a: &Simplex) -> Result<Facets, Memory>
    ensures { IfOk result (λ d. d ≡ star c.now a.now) }
{
    let pieces = facets_with(alloc, c.as_slice(), a)?;
    Facets::generated(alloc, &pieces)
}

/// The complex of the faces that are disjoint from the face and whose union with it is a face.
pub fn link(alloc: Global, c: &Facets, a: &Simplex) -> Result<Facets, PartFault>
    ensures value { IfOk result (λ d. d ≡ link c.now a.now) }
    ensures not_face { (result ≡ Err fault.NotFace) ↔ (is_face c.now a.now ≡ false) }
    ensures faults { IfErr result (λ e. (e ≡ fault.NotFace) ⊎ (e ≡ fault.Memory)) }
{
    if !c.has_face(a) {
        return Err(PartFault::NotFace);
    }
    Ok(link_of(alloc, c, a)?)
}

fn link_of(alloc: Global, c: &Facets, a: &Simplex) -> Result<Facets, Memory>
    ensures { IfOk result (λ d. d ≡ link c.now a.now) }
{
    let pieces = link_pieces(alloc, c.as_slice(), a)?;
    Facets::generated(alloc, &pieces)
}

/// The complex of the faces that do not contain the face.
pub fn deletion(alloc: Global, c: &Facets, a: &Simplex) -> Result<Facets, PartFault>
    ensures value { IfOk result (λ d. d ≡ deletion c.now a.now) }
    ensures not_face { (result ≡ Err fault.NotFace) ↔ (is_face c.now a.now ≡ false) }
    ensures faults { IfErr result (λ e. (e ≡ fault.NotFace) ⊎ (e ≡ fault.Memory)) }
{
    if !c.has_face(a) {
        return Err(PartFault::NotFace);
    }
    Ok(deletion_of(alloc, c, a)?)
}

fn deletion_of(alloc: Global, c: &Facets, a: &Simplex) -> Result<Facets, Memory>
    ensures { IfOk result (λ d. d ≡ deletion c.now a.now) }
{
    let pieces = deletion_pieces(alloc, c.as_slice(), a)?;
    Facets::generated(alloc, &pieces)
}
