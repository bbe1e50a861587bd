ghost use Rattle.std.specs.Prelude.{◌≡◌, ◌<◌, ◌↔◌, [], ◌∷◌, ◌++◌, IsSome, length, map, slice_get, vec_len, vec_capacity};
ghost use Rattle.std.specs.List.{filter};
ghost use Rattle.facet_set.specs.Numbers.{degree};
ghost use Rattle.facet_set.specs.Flips.{flip, after, undoing};
ghost use Rattle.flip_rules.specs.Tallies.{flip_of};
ghost use Rattle.flip_table.specs.Kept.{IsKept, IsNext};

use crate::StageFault;
use crate::kept::{candidate_lists, new_point, open_at, open_count};
use crate::next::Next;
use facet_set::Facets;
use flip_rules::{Candidate, Candidates, FlipFault, check};
use simplex::{Flip, Memory, Simplex, Steps};
use std::alloc::Global;
use std::marker::Model;
use std::sync::ledger::Ledger;

/// A complex, the journal of the flips that were made since the journal was last empty, and at most one staged flip.
/// What is read is the present complex, without the staged flip.
#[derive(Debug, Drop)]
pub struct Session {
    present: Facets,
    // Of the classes from 1 on.
    candidates: Vec<Candidates>,
    // What a flip of class 0 puts in.
    point: Option<Simplex>,
    journal: Vec<Flip>,
    staged: Option<Next>,
}

impl Model for Session {
    ghost use Rattle.std.specs.Prelude.{◌<◌, option_map, vec_len, vec_capacity};
    ghost use Rattle.std.specs.Option.{IfSome};
    ghost use Rattle.flip_table.specs.declared.next.Next.{Next};
    ghost use Rattle.flip_table.specs.Session.{Standing};
    ghost use Rattle.flip_table.specs.Kept.{IsKept, IsNext};

    ghost Value = { Standing };

    ghost view = { λ s. record {
      present = s.present;
      journal = s.journal.items;
      staged = option_map (λ (n : Next). n.flip) s.staged;
    } };

    ghost invariant = { λ s. IsKept s.present s.candidates.items s.point s.journal.items
        × IfSome s.staged (λ (n : Next). IsNext s.present n.flip n.present n.candidates.items n.point × (vec_len s.journal < vec_capacity s.journal)) };
}

impl Session {
    ghost use Rattle.std.specs.Prelude.{◌≡◌, ◌≤◌, ◌<◌, ◌+◌, ◌*◌, ◌↔◌, ◌⊎◌, false, None, IsTrue, IsSome, IsOk, IfSome, IfOk, OnOk, OnErr, length, slice_get};
    ghost use Rattle.simplex.specs.FirstFailing.{first_failing, unless_fault};
    ghost use Rattle.std.specs.List.{list_all};
    ghost use Rattle.simplex.specs.Simplex.{is_simplex};
    ghost use Rattle.facet_set.specs.Complex.{is_complex, is_face};
    ghost use Rattle.facet_set.specs.Numbers.{dim, is_pure, degree};
    ghost use Rattle.facet_set.specs.Flips.{allowed, options, is_simplex_boundary, goes, undoing};
    ghost use Rattle.flip_rules.specs.Candidates.{candidates};
    ghost use Rattle.flip_rules.specs.Tests.{flip_tests};
    ghost use Rattle.flip_table.specs.Answers.{IsStageAnswer};
    ghost use Rattle.flip_table.specs.Moves.{moved, stage_bound};
    ghost use Rattle.flip_table.specs.Session.{started, staged_with, committed, cancelled, start};

    /// A session of the complex, with an empty journal and nothing staged.
    pub fn new(alloc: Global, c: &Facets) -> Result<Session, Memory>
        ensures value { IfOk result (λ s. s ≡ started c.now) }
        ensures start { IfOk result (λ s. start s ≡ c.now) }
    {
        let present = c.copy()?;
        let candidates = candidate_lists(alloc, &present)?;
        let point = new_point(&present)?;
        Ok(Session {
            present,
            candidates,
            point,
            journal: Vec::new(alloc),
            staged: None,
        })
    }

    /// The present complex.
    pub fn facets(&self) -> Result<Facets, Memory>
        ensures { IfOk result (λ c. c ≡ self.now.present) }
    {
        self.present.copy()
    }

    /// The number of facets.
    pub fn facet_count(&self) -> usize
        ensures value { result ≡ length self.now.present }
        ensures simplices { IsTrue (list_all is_simplex self.now.present) }
        ensures complex { IsTrue (is_complex self.now.present) }
    {
        self.present.as_slice().len()
    }

    /// The dimension. None exactly where there is no facet.
    pub fn dim(&self) -> Option<i32>
        ensures { result ≡ dim self.now.present }
    {
        self.present.dim()
    }

    /// Whether there is a facet and all have the same number of labels.
    pub fn is_pure(&self) -> bool
        ensures { result ≡ is_pure self.now.present }
    {
        self.present.is_pure()
    }

    /// Whether the complex is the boundary of a simplex.
    pub fn is_simplex_boundary(&self) -> bool
        ensures { result ≡ is_simplex_boundary self.now.present }
    {
        self.present.is_simplex_boundary()
    }

    /// Whether the simplex is a face.
    pub fn is_face(&self, s: &Simplex) -> bool
        ensures { result ≡ is_face self.now.present s.now }
    {
        self.present.has_face(s)
    }

    /// How many facets contain the simplex: 0 exactly where it is no face.
    pub fn degree(&self, s: &Simplex) -> usize
        ensures { result ≡ degree self.now.present s.now }
    {
        degree(self.present.as_slice(), s)
    }

    /// The number of options of the class.
    pub fn options_count(&self, class: usize) -> usize
        ensures { result ≡ length (options self.now.present class) }
    {
        if class == 0 {
            self.subdivision_count()
        } else {
            self.exchange_count(class)
        }
    }

    fn subdivision_count(&self) -> usize
        ensures { result ≡ length (options self.now.present 0) }
    {
        match self.point {
            Some(_) => self.present.as_slice().len(),
            None => 0,
        }
    }

    #[tactic(auto, using(crate::proofs::KeptOptions::open_length))]
    fn exchange_count(&self, class: usize) -> usize
        requires { 0 < class }
        ensures { result ≡ length (options self.now.present class) }
    {
        open_count(self.candidates_of(class))
    }

    /// The option of the class at the place, from 0, in the order of the sets that go out. None exactly where the complex
    /// is not pure or the class has not so many.
    #[tactic(auto, using(crate::proofs::KeptOptions::option_none, crate::proofs::KeptOptions::option_passes))]
    pub fn option_at(&self, class: usize, k: usize) -> Option<Flip>
        ensures value { result ≡ slice_get (options self.now.present class) k }
        ensures none { (result ≡ None) ↔ ((is_pure self.now.present ≡ false) ⊎ (length (options self.now.present class) ≤ k)) }
        ensures passes { IfSome result (λ m. first_failing (flip_tests self.now.present m) ≡ None) }
    {
        if class == 0 {
            self.subdivision_at(k)
        } else {
            self.exchange_at(class, k)
        }
    }

    fn subdivision_at(&self, k: usize) -> Option<Flip>
        ensures { result ≡ slice_get (options self.now.present 0) k }
    {
        match &self.point {
            Some(b) => subdivided(self.present.as_slice(), b, k),
            None => None,
        }
    }

    #[tactic(auto, using(crate::proofs::KeptOptions::open_place))]
    fn exchange_at(&self, class: usize, k: usize) -> Option<Flip>
        requires { 0 < class }
        ensures { result ≡ slice_get (options self.now.present class) k }
    {
        open_at(self.candidates_of(class), k)
    }

    // The candidates of the class. No class above the dimension has any.
    #[tactic(auto, using(crate::proofs::KeptOptions::list_at, crate::proofs::KeptOptions::list_none))]
    fn candidates_of(&self, class: usize) -> &[Candidate]
        requires { 0 < class }
        ensures { result.now ≡ candidates self.now.present class }
    {
        match self.candidates.get(class - 1) {
            Some(list) => list.as_slice(),
            None => &[],
        }
    }

    /// Whether the flip is allowed, and otherwise the first of the five parts that fails (Pachner; Bjorner and Lutz).
    pub fn check(&self, flip: &Flip) -> Result<(), FlipFault>
        ensures exact { result ≡ unless_fault (first_failing (flip_tests self.now.present flip.now)) tt }
        ensures allowed { IsOk result ↔ IsTrue (allowed self.now.present flip.now.a flip.now.b) }
    {
        check(&self.present, flip)
    }

    /// The number of flips in the journal. Their inverses, last first, are allowed on the present complex.
    pub fn mark(&self) -> usize
        ensures value { result ≡ length self.now.journal }
        ensures back { IsTrue (goes self.now.present (undoing self.now.journal)) }
    {
        self.journal.len()
    }

    /// The flip of the journal at the place, from 0. None exactly where there is none.
    pub fn flip_at(&self, k: usize) -> Option<Flip>
        ensures value { result ≡ slice_get self.now.journal k }
        ensures variant { IsSome result ↔ (k < length self.now.journal) }
    {
        flip_of(&self.journal, k)
    }

    /// Takes the flip for the next `commit`, or answers why it is not allowed. An `Err` changes nothing. It takes at most
    /// 4(d+6)^2 2^(d+1) steps, where d is the dimension.
    pub fn stage<L: Ledger>(&mut self, flip: &Flip, steps: &mut Steps<L>) -> Result<(), StageFault>
        requires { self.old.staged ≡ None }
        ensures ok { OnOk result (self.new ≡ staged_with flip.now self.old) }
        ensures err { OnErr result (self.new ≡ self.old) }
        ensures exact { IsStageAnswer (first_failing (flip_tests self.old.present flip.now)) result }
        ensures counted { steps.old ≤ steps.new }
        ensures few { steps.new ≤ steps.old + stage_bound self.old.present }
    {
        // A session kept in this form makes no step.
        let _ = steps;
        self.check(flip)?;
        self.journal.reserve(1)?;
        let alloc = *self.journal.allocator();
        self.staged = Some(Next::of(alloc, &self.present, &self.candidates, self.point, flip)?);
        Ok(())
    }

    /// Makes the staged flip and writes it at the end of the journal. It takes no memory, and at most as many steps as
    /// `stage` and 8 for each face that gets or loses an option of a class.
    pub fn commit<L: Ledger>(&mut self, steps: &mut Steps<L>)
        requires { IsSome self.old.staged }
        ensures value { self.new ≡ committed self.old }
        ensures start { start self.new ≡ start self.old }
        ensures counted { steps.old ≤ steps.new }
        ensures few { steps.new ≤ steps.old + (stage_bound self.old.present + 8 * moved self.old.present self.new.present) }
    {
        // A session kept in this form makes no step.
        let _ = steps;
        if let Some(next) = self.staged.take() {
            make(
                &mut self.present,
                &mut self.candidates,
                &mut self.point,
                &mut self.journal,
                next,
            );
        }
    }

    /// Gives the staged flip up.
    pub fn cancel(&mut self)
        requires { IsSome self.old.staged }
        ensures { self.new ≡ cancelled self.old }
    {
        self.staged = None;
    }
}

// Puts what the flip leads to in place of what is kept, and writes the flip at the end of the journal.
#[tactic(auto, using(crate::proofs::JournalLaws::kept_after, crate::proofs::JournalLaws::start_kept))]
fn make(
    present: &mut Facets,
    candidates: &mut Vec<Candidates>,
    point: &mut Option<Simplex>,
    journal: &mut Vec<Flip>,
    next: Next,
)
    requires kept { IsKept present.old candidates.old.items point.old journal.old.items }
    requires next { IsNext present.old next.flip next.present next.candidates.items next.point }
    requires room { vec_len journal.old < vec_capacity journal.old }
    ensures kept { IsKept present.new candidates.new.items point.new journal.new.items }
    ensures present { present.new ≡ flip present.old next.flip.a next.flip.b }
    ensures journal { journal.new.items ≡ journal.old.items ++ next.flip ∷ [] }
    ensures start { after present.new (undoing journal.new.items) ≡ after present.old (undoing journal.old.items) }
{
    journal.push(next.flip).unwrap();
    *present = next.present;
    *candidates = next.candidates;
    *point = next.point;
}

// The flip at the place.
fn flip_of(flips: &[Flip], k: usize) -> Option<Flip>
    ensures value { result ≡ slice_get flips.now k }
    ensures variant { IsSome result ↔ (k < length flips.now) }
{
    flips.get(k).copied()
}

// The flip that puts b into the facet at the place.
fn subdivided(facets: &[Simplex], b: &Simplex, k: usize) -> Option<Flip>
    ensures { result ≡ slice_get (map (λ a. flip_of a b.now) facets.now) k }
{
    facets.get(k).map(|a| Flip { a: *a, b: *b })
}

// How many of the facets contain the simplex.
fn degree(facets: &[Simplex], s: &Simplex) -> usize
    ensures { result ≡ degree facets.now s.now }
{
    facets.iter().filter(|facet| s.within(facet)).count()
}
