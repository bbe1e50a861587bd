ghost use Rattle.std.specs.Prelude.{◌≡◌, ◌≤◌, ◌==◌, length};
ghost use Rattle.std.specs.List.{list_all};
ghost use Rattle.facet_set.specs.Complex.{is_face};
ghost use Rattle.facet_set.specs.Numbers.{size, is_pure};

use crate::Change;
use crate::change::only_in;
use crate::generated::{in_order, uncovered};
use crate::vertices::{greatest_label, least_missing, vertex_count, vertices};
use simplex::{LABEL_LIMIT, Labels, Memory, Simplex};
use std::alloc::Global;
use std::marker::Model;

/// The facets of a simplicial complex: a strictly increasing list of simplices of which none lies in another.
#[derive(Debug, Drop)]
pub struct Facets {
    simplices: Vec<Simplex>,
}

impl Model for Facets {
    ghost use Rattle.std.specs.Prelude.{List, ℕ};
    ghost use Rattle.facet_set.specs.Facets.{IsFacets};

    ghost Value = { List (List ℕ) };

    ghost view = { λ f. f.simplices.items };

    ghost invariant = { λ f. IsFacets f.simplices.items };
}

impl Facets {
    ghost use Rattle.std.specs.Prelude.{◌≡◌, ◌≤◌, ◌-◌, ◌^◌, IfOk, IsTrue, SomeIff, min};
    ghost use Rattle.std.specs.List.{list_all};
    ghost use Rattle.simplex.specs.Simplex.{is_simplex, is_label};
    ghost use Rattle.facet_set.specs.Change.{only_in};
    ghost use Rattle.facet_set.specs.Complex.{generated, is_complex, is_face, stands_in, verts};
    ghost use Rattle.facet_set.specs.Numbers.{size, dim, is_pure, weight, greatest};
    ghost use Rattle.facet_set.specs.Flips.{fresh, is_simplex_boundary};

    /// The facets of the complex whose faces are the subsets of these simplices.
    pub fn generated(alloc: Global, list: &[Simplex]) -> Result<Facets, Memory>
        ensures { IfOk result (λ f. f ≡ generated list.now) }
    {
        let members = in_order(alloc, list)?;
        let simplices = uncovered(alloc, &members)?;
        Ok(Facets { simplices })
    }

    /// The complex with just these facets. None exactly where they are not in strictly increasing order or one lies in another.
    pub fn exact(alloc: Global, list: &[Simplex]) -> Result<Option<Facets>, Memory>
        ensures { IfOk result (λ o. SomeIff o (IsTrue (is_complex list.now)) list.now) }
    {
        let facets = Facets::generated(alloc, list)?;
        if facets.as_slice() == list {
            Ok(Some(facets))
        } else {
            Ok(None)
        }
    }

    /// The facets in increasing order.
    pub fn as_slice(&self) -> &[Simplex]
        ensures value { result.now ≡ self.now }
        ensures simplices { IsTrue (list_all is_simplex self.now) }
        ensures complex { IsTrue (is_complex self.now) }
    {
        self.simplices.as_slice()
    }

    /// The number of labels of the largest facet: the dimension and one, or 0 where there is no facet.
    pub fn size(&self) -> usize
        ensures value { result ≡ size self.now }
        ensures bound { result ≤ 12 }
    {
        largest(&self.simplices)
    }

    /// The dimension. None exactly where there is no facet.
    pub fn dim(&self) -> Option<i32>
        ensures { result ≡ dim self.now }
    {
        if self.simplices.is_empty() {
            return None;
        }
        Some(self.size() as i32 - 1)
    }

    /// Whether there is a facet and all have the same number of labels.
    pub fn is_pure(&self) -> bool
        ensures { result ≡ is_pure self.now }
    {
        is_pure(&self.simplices)
    }

    /// Whether the simplex is a face, that is, lies in a facet.
    pub fn has_face(&self, s: &Simplex) -> bool
        ensures { result ≡ is_face self.now s.now }
    {
        is_face(&self.simplices, s)
    }

    /// Whether the simplex is a facet.
    pub fn is_facet(&self, s: &Simplex) -> bool
        ensures { result ≡ stands_in self.now s.now }
    {
        self.simplices.binary_search(s).is_ok()
    }

    /// The greatest vertex, or 0 where there is none.
    pub fn max_label(&self) -> u32
        ensures { result ≡ greatest self.now }
    {
        greatest_label(&self.simplices)
    }

    /// The number of facets times 2 to the number of labels of the largest, or the last u64 where that is less.
    pub fn weight(&self) -> u64
        ensures { result ≡ min (weight self.now) (2 ^ 64 - 1) }
    {
        (self.simplices.len() as u64).saturating_mul(1 << self.size())
    }

    /// Whether the complex is the boundary of a simplex: pure, and with one vertex and one facet more than a facet has labels.
    pub fn is_simplex_boundary(&self) -> bool
        ensures { result ≡ is_simplex_boundary self.now }
    {
        let count = self.size() + 1;
        self.simplices.len() == count && self.is_pure() && vertex_count(&self.simplices) == count
    }

    /// The vertices in increasing order.
    pub fn vertices(&self) -> Result<Labels, Memory>
        ensures value { IfOk result (λ l. l ≡ verts self.now) }
        ensures labels { IfOk result (λ l. IsTrue (list_all is_label l)) }
    {
        vertices(*self.simplices.allocator(), &self.simplices)
    }

    /// The least label that is no vertex. None exactly where all labels are vertices.
    pub fn fresh(&self) -> Result<Option<u32>, Memory>
        ensures { IfOk result (λ o. o ≡ fresh self.now) }
    {
        let label = least_missing(self.vertices()?.as_slice());
        Ok(if label <= LABEL_LIMIT {
            Some(label)
        } else {
            None
        })
    }

    /// What this complex has and the other has not, and the other way round.
    pub fn difference(&self, other: &Facets) -> Result<Change, Memory>
        ensures gone { IfOk result (λ d. d.gone ≡ only_in self.now other.now) }
        ensures come { IfOk result (λ d. d.come ≡ only_in other.now self.now) }
    {
        let alloc = *self.simplices.allocator();
        Ok(Change {
            gone: only_in(alloc, self, other)?,
            come: only_in(alloc, other, self)?,
        })
    }

    /// The same complex once more.
    pub fn copy(&self) -> Result<Facets, Memory>
        ensures { IfOk result (λ f. f ≡ self.now) }
    {
        let simplices = Vec::from_slice(*self.simplices.allocator(), &self.simplices)?;
        Ok(Facets { simplices })
    }
}

/// Whether the simplex lies in one of these, that is, is a face of the complex that they generate.
pub fn is_face(facets: &[Simplex], s: &Simplex) -> bool
    ensures { result ≡ is_face facets.now s.now }
{
    facets.iter().any(|facet| s.within(facet))
}

fn is_pure(simplices: &[Simplex]) -> bool
    ensures { result ≡ is_pure simplices.now }
{
    !simplices.is_empty() && all_have(simplices, largest(simplices))
}

fn all_have(simplices: &[Simplex], len: usize) -> bool
    ensures { result ≡ list_all (λ s. length s == len) simplices.now }
{
    simplices.iter().all(|s| s.len() == len)
}

// The number of labels of the largest.
fn largest(simplices: &[Simplex]) -> usize
    ensures value { result ≡ size simplices.now }
    ensures bound { result ≤ 12 }
{
    let mut largest = 0;
    for s in simplices {
        largest = s.len().max(largest);
    }
    largest
}
