// The links of vertices.
ghost use Rattle.std.specs.Prelude.{◌≡◌, IfOk, IsTrue};
ghost use Rattle.simplex.specs.Simplex.{is_label};
ghost use Rattle.flip_certificate.specs.Valid.{vertex_link};
ghost use Rattle.facet_set.specs.Parts.{link_pieces};

use facet_set::{Facets, point};
use simplex::{Memory, Simplex};
use std::alloc::{AllocError, Global};

/// The complex of the faces that lack the vertex and with it are faces.
pub fn vertex_link(alloc: Global, c: &Facets, vertex: u32) -> Result<Facets, Memory>
    requires { IsTrue (is_label vertex) }
    ensures { IfOk result (λ d. d ≡ vertex_link c.now vertex) }
{
    let pieces = link_pieces(alloc, c.as_slice(), &point(vertex))?;
    Facets::generated(alloc, &pieces)
}

// The facets that contain the simplex, less its labels.
fn link_pieces(alloc: Global, facets: &[Simplex], a: &Simplex) -> Result<Vec<Simplex>, AllocError>
    ensures { IfOk result (λ v. v.items ≡ link_pieces facets.now a.now) }
{
    facets
        .iter()
        .filter(|facet| a.within(facet))
        .map(|facet| facet.minus(a))
        .collect(alloc)
}
