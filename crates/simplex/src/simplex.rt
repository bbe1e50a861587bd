ghost use Rattle.std.specs.Prelude.{◌≡◌, ◌≤◌, Some, IsPermutation, IsSorted, length, nat_eq, refl};
ghost use Rattle.std.specs.Ordering.{nat_cmp};
ghost use Rattle.simplex.specs.Merge.{least, passed};
ghost use Rattle.std.specs.Cmp.{partial_equiv_from_equiv};
ghost use Rattle.std.specs.Cmp.Lexicographic.{pointwise, slice_cmp, nat_list_eq_equiv, nat_list_cmp_total, texts_po, texts_ties};
ghost use Rattle.std.specs.Cmp.Rules.{hashing};
ghost use Rattle.std.specs.Hash as fed;
ghost use Rattle.std.proofs.Common.{rules};

use crate::SimplexFault;
use crate::simplex_fault::first_place_fault;
use std::cmp::Ordering;
use std::hash::{Hash, Hasher};
use std::marker::Model;

/// The most labels that a simplex has.
pub const LEN_LIMIT: usize = 12;

/// The greatest label. The least is 1.
pub const LABEL_LIMIT: u32 = 1_000_000;

/// A simplex: a strictly increasing list of at most 12 labels of 1..1,000,000. The limits are own.
#[derive(Clone, Copy, Debug)]
pub struct Simplex {
    cells: [u32; 12],
    len: usize,
}

impl Model for Simplex {
    ghost use Rattle.std.specs.Prelude.{List, ℕ, take, length, ◌++◌, ◌-◌, replicate};
    ghost use Rattle.simplex.specs.Cells.{IsFilled, filled_back, filled_len};

    ghost Value = { List ℕ };

    ghost view = { λ s. take s.len s.cells };

    ghost invariant = { λ s. IsFilled s.cells s.len };

    ghost inverse = { λ xs. record { cells = xs ++ replicate (12 - length xs) 0; len = length xs } };

    ghost inverse_ok = { λ s h i. record {
      cells = filled_back s.cells s.len h i;
      len = filled_len s.cells s.len h i;
    } };
}

impl Simplex {
    ghost use Rattle.std.specs.Prelude.{◌≡◌, ◌≤◌, ◌<◌, ◌^◌, ◌↔◌, ◌==◌, [], ◌∷◌, ◌++◌, length, IsTrue, IsSome, IfOk, IfSome, slice_get, None, Ok};
    ghost use Rattle.simplex.specs.FirstFailing.{first_failing};
    ghost use Rattle.simplex.specs.InOrder.{put};
    ghost use Rattle.simplex.specs.Simplex.{has, is_within, is_disjoint, union, minus, without, subset_at, is_simplex};
    ghost use Rattle.simplex.specs.SimplexFault.{set, place_tests, simplex_of};

    /// The simplex with no label.
    pub const EMPTY: Simplex = Simplex {
        cells: [0; 12],
        len: 0,
    };

    /// The simplex of these labels, in any order, or the first fault of the list.
    pub fn of(labels: &[u32]) -> Result<Simplex, SimplexFault>
        ensures exact { result ≡ simplex_of labels.now }
        ensures simplex { IfOk result (λ s. IsTrue (is_simplex s)) }
    {
        if labels.len() > LEN_LIMIT {
            return Err(SimplexFault::Long { len: labels.len() });
        }
        if let Some(fault) = first_place_fault(labels) {
            return Err(fault);
        }
        Ok(Simplex::sorted(labels))
    }

    fn sorted(labels: &[u32]) -> Simplex
        requires short { length labels.now ≤ 12 }
        requires clean { first_failing (place_tests 0 [] labels.now) ≡ None }
        ensures value { result ≡ set labels.now }
        ensures simplex { IsTrue (is_simplex result) }
    {
        let mut cells = [0; 12];
        let len = labels.len();
        fill(&mut cells[..len], labels);
        Simplex { cells, len }
    }

    /// The labels in increasing order.
    pub fn labels(&self) -> &[u32]
        ensures value { result.now ≡ self.now }
        ensures simplex { IsTrue (is_simplex self.now) }
    {
        &self.cells[..self.len]
    }

    /// The number of labels, which is the dimension and one.
    pub fn len(&self) -> usize
        ensures value { result ≡ length self.now }
        ensures simplex { IsTrue (is_simplex self.now) }
    {
        self.len
    }

    pub fn is_empty(&self) -> bool
        ensures { result ≡ (length self.now == 0) }
    {
        self.len == 0
    }

    /// The label at the place, from 0. None exactly where there is none.
    pub fn at(&self, k: usize) -> Option<u32>
        ensures value { result ≡ slice_get self.now k }
        ensures simplex { IsTrue (is_simplex self.now) }
    {
        self.labels().get(k).copied()
    }

    /// Whether the label is in the simplex.
    pub fn has(&self, label: u32) -> bool
        ensures { result ≡ has self.now label }
    {
        self.labels().contains(&label)
    }

    /// Whether each label is one of the other's.
    pub fn within(&self, other: &Simplex) -> bool
        ensures { result ≡ is_within self.now other.now }
    {
        self.labels().iter().all(|label| other.has(*label))
    }

    /// Whether the two have no label in common.
    pub fn disjoint(&self, other: &Simplex) -> bool
        ensures { result ≡ is_disjoint self.now other.now }
    {
        self.labels().iter().all(|label| !other.has(*label))
    }

    /// The labels of either. None exactly where these are more than 12.
    pub fn union(&self, other: &Simplex) -> Option<Simplex>
        ensures fits { IsSome result ↔ (length (union self.now other.now) ≤ LEN_LIMIT) }
        ensures value { IfSome result (λ u. u ≡ union self.now other.now) }
        ensures simplex { IfSome result (λ u. IsTrue (is_simplex u)) }
    {
        let mut union = Simplex::EMPTY;
        let (mut left, mut right) = (0, 0);
        while let Some(label) = least(self.at(left), other.at(right)) {
            if union.len() == LEN_LIMIT {
                return None;
            }
            union.push(label);
            left += passed(self.at(left), label);
            right += passed(other.at(right), label);
        }
        Some(union)
    }

    /// The labels that are not the other's.
    pub fn minus(&self, other: &Simplex) -> Simplex
        ensures value { result ≡ minus self.now other.now }
        ensures simplex { IsTrue (is_simplex result) }
    {
        let mut rest = Simplex::EMPTY;
        for label in self.labels() {
            if !other.has(*label) {
                rest.push(*label);
            }
        }
        rest
    }

    /// The labels but this one.
    pub fn without(&self, label: u32) -> Simplex
        ensures value { result ≡ without self.now label }
        ensures simplex { IsTrue (is_simplex result) }
    {
        let mut rest = Simplex::EMPTY;
        for other in self.labels() {
            if label != *other {
                rest.push(*other);
            }
        }
        rest
    }

    /// The labels at the places whose bits are set, from the lowest bit on.
    pub fn subset(&self, mask: u32) -> Simplex
        ensures value { result ≡ subset_at self.now mask }
        ensures simplex { IsTrue (is_simplex result) }
    {
        let mut subset = Simplex::EMPTY;
        let mut bits = mask;
        for label in self.labels() {
            if bits % 2 == 1 {
                subset.push(*label);
            }
            bits /= 2;
        }
        subset
    }

    // Adds a label above all others.
    fn push(&mut self, label: u32)
        requires { IsTrue (is_simplex (self.old ++ label ∷ [])) }
        ensures { self.new ≡ self.old ++ label ∷ [] }
    {
        self.cells[self.len] = label;
        self.len += 1;
    }
}

// The lesser of two labels, where there is one.
fn least(a: Option<u32>, b: Option<u32>) -> Option<u32>
    ensures { result ≡ least a b }
{
    match (a, b) {
        (Some(a), Some(b)) => Some(a.min(b)),
        (None, b) => b,
        (a, None) => a,
    }
}

// How far a merge goes on in the list that has this label next.
fn passed(next: Option<u32>, label: u32) -> usize
    ensures { result ≡ passed next label }
{
    match next {
        Some(next) if next == label => 1,
        _ => 0,
    }
}

// The labels in the cells, in order.
fn fill(cells: &mut [u32], labels: &[u32])
    requires { length cells.old ≡ length labels.now }
    ensures permutation { IsPermutation labels.now cells.new }
    ensures sorted { IsSorted nat_cmp cells.new }
{
    cells.copy_from_slice(labels);
    cells.sort_unstable();
}

impl PartialEq for Simplex {
    ghost eq = { pointwise nat_eq };

    ghost laws = { partial_equiv_from_equiv nat_list_eq_equiv };

    fn eq(&self, other: &Simplex) -> bool {
        self.labels() == other.labels()
    }
}

impl Eq for Simplex {
    ghost laws = { nat_list_eq_equiv };
}

impl PartialOrd for Simplex {
    ghost partial_cmp = { λ x y. Some (slice_cmp nat_cmp x y) };

    ghost laws = { texts_po };

    fn partial_cmp(&self, other: &Simplex) -> Option<Ordering> {
        Some(self.cmp(other))
    }
}

impl Ord for Simplex {
    ghost cmp = { slice_cmp nat_cmp };

    ghost total = { nat_list_cmp_total };

    ghost matches_partial_cmp = { λ x y. refl };

    ghost matches_eq = { texts_ties };

    fn cmp(&self, other: &Simplex) -> Ordering {
        self.labels().cmp(other.labels())
    }
}

impl Hash for Simplex {
    ghost hash_input = { fed.slice fed.u32 };

    ghost respects_eq = { Prim.search (hashing, rules) };

    fn hash<H: Hasher>(&self, state: &mut H) {
        self.labels().hash(state);
    }
}
