ghost use Rattle.std.specs.Prelude.{◌≡◌, ◌+◌, ◌<◌, ◌≤◌, ◌==◌, ℕ, false, Some, None, pos, length, map, nat_le, IfErr, IfOk, IfSome, OnErr, OnOk, Err, ◌⊎◌, if◌then◌else◌};
ghost use Rattle.std.specs.Bool.{IsTrue};
ghost use Rattle.std.specs.List.{list_all};
ghost use Rattle.std.specs.Option.{is_some, unwrap_or};
ghost use Rattle.simplex.specs.Simplex.{is_simplex};
ghost use Rattle.facet_set.specs.Numbers.{face_count, size};
ghost use Rattle.gf2_rank.specs.Matrix.{side_limit};
ghost use Rattle.betti_tables.specs.declared.betti_fault.BettiFault.TheVariants as fault;
ghost use Rattle.betti_tables.specs.Betti.{numbers};
ghost use Rattle.betti_tables.specs.Limits.{limit_fault};
ghost use Rattle.betti_tables.specs.Progress.{IsKeptBelow};
ghost use Rattle.betti_tables.specs.Ranks.{betti_number, betti_vector, rank_at};
ghost use Rattle.betti_tables.specs.Table.{AreRanksOf, kept, kept_after, kept_count, missing, no_ranks};

use crate::boundary::boundary_rank;
use crate::{Betti, BettiFault};
use face_lattice::Lattice;
use gf2_rank::SIDE_LIMIT;
use simplex::{Memory, Steps};
use std::alloc::Global;
use std::marker::Model;
use std::sync::ledger::Ledger;

/// The ranks of a complex that are kept, by their dimensions.
#[derive(Debug, Drop)]
pub struct RankTable {
    ranks: [Option<usize>; 12],
}

impl Model for RankTable {
    ghost use Rattle.std.specs.Prelude.{◌≡◌, List, ℕ, Option, length};

    ghost Value = { List (Option ℕ) };

    ghost view = { λ t. t.ranks };

    ghost invariant = { λ t. length t.ranks ≡ 12 };
}

impl RankTable {
    /// The table that keeps no rank. It takes no memory.
    pub fn new() -> RankTable
        ensures value { result ≡ no_ranks }
        ensures none { (k : ℕ) → kept result k ≡ None }
    {
        RankTable { ranks: [None; 12] }
    }

    /// Whether rank(k) is kept. It takes no memory.
    pub fn is_kept(&self, k: usize) -> bool
        ensures { result ≡ is_some (kept self.now k) }
    {
        self.kept(k).is_some()
    }

    /// The Betti numbers modulo 2 of a complex (textbook), where each kept rank is one of its own. Each rank that was not kept is
    /// computed, which is one step, and kept. A kept rank is not computed again.
    pub fn betti<L: Ledger>(
        &mut self,
        alloc: Global,
        l: &Lattice,
        steps: &mut Steps<L>,
    ) -> Result<Betti, BettiFault>
        requires { AreRanksOf l.now.facets self.old }
        ensures value { IfOk result (λ b. map pos (numbers b) ≡ betti_vector l.now.facets) }
        ensures kept { OnOk result ((k : ℕ) → kept self.new k ≡ kept_after l.now.facets self.old (size l.now.facets) k) }
        ensures steps { OnOk result (steps.new ≡ steps.old + length (missing self.old (size l.now.facets))) }
        ensures limit { IfSome (limit_fault l.now.facets) (λ e. (result ≡ Err e) × (self.new ≡ self.old) × (steps.new ≡ steps.old)) }
        ensures faults { IfErr result (λ e. (limit_fault l.now.facets ≡ Some e) ⊎ (e ≡ fault.Memory)) }
        ensures ranks { AreRanksOf l.now.facets self.new }
        ensures stays { (k r : ℕ) → kept self.old k ≡ Some r → kept self.new k ≡ Some r }
        ensures counted { steps.new + kept_count self.old ≡ steps.old + kept_count self.new }
    {
        if let Some(fault) = limit_fault(l) {
            return Err(fault);
        }
        self.keep_all(alloc, l, steps)?;
        Ok(self.numbers(l))
    }

    /// Forgets rank(k) for each k with k + 1 from the size on. It takes no memory.
    pub fn keep_below(&mut self, size: usize)
        ensures { (k : ℕ) → kept self.new k ≡ (if nat_le size (k + 1) then None else kept self.old k) }
    {
        for k in size.saturating_sub(1)..self.ranks.len() {
            self.ranks[k] = None;
        }
    }

    // The rank that is kept for k.
    fn kept(&self, k: usize) -> Option<usize>
        ensures { result ≡ kept self.now k }
    {
        self.ranks.get(k).copied().flatten()
    }

    // Computes the ranks that are not kept.
    fn keep_all<L: Ledger>(
        &mut self,
        alloc: Global,
        l: &Lattice,
        steps: &mut Steps<L>,
    ) -> Result<(), Memory>
        requires ranks { AreRanksOf l.now.facets self.old }
        requires limit { limit_fault l.now.facets ≡ None }
        ensures ok { OnOk result (IsKeptBelow l.now.facets self.old self.new steps.old steps.new (size l.now.facets)) }
        ensures err { OnErr result ((n : ℕ) × IsKeptBelow l.now.facets self.old self.new steps.old steps.new n) }
    {
        for k in 1..l.size() {
            self.keep(alloc, l, k, steps)?;
        }
        Ok(())
    }

    // Computes one rank, unless it is kept.
    fn keep<L: Ledger>(
        &mut self,
        alloc: Global,
        l: &Lattice,
        k: usize,
        steps: &mut Steps<L>,
    ) -> Result<(), Memory>
        requires simplices { IsTrue (list_all is_simplex l.now.facets) }
        requires ranks { AreRanksOf l.now.facets self.old }
        requires low { 1 ≤ k }
        requires high { k < 12 }
        requires rows { face_count l.now.facets k ≤ side_limit }
        requires columns { face_count l.now.facets (k + 1) ≤ side_limit }
        ensures kept { OnOk result ((j : ℕ) → kept self.new j ≡ (if j == k then Some (rank_at l.now.facets k) else kept self.old j)) }
        ensures steps { OnOk result (steps.new ≡ steps.old + (if is_some (kept self.old k) then 0 else 1)) }
        ensures counted { OnOk result (steps.new + kept_count self.old ≡ steps.old + kept_count self.new) }
        ensures table { OnErr result (self.new ≡ self.old) }
        ensures none { OnErr result (steps.new ≡ steps.old) }
    {
        if self.is_kept(k) {
            return Ok(());
        }
        let rank = boundary_rank(alloc, l, k, steps)?;
        self.put(k, rank);
        Ok(())
    }

    // Keeps a rank that was not kept.
    fn put(&mut self, k: usize, rank: usize)
        requires inside { k < 12 }
        requires none { is_some (kept self.old k) ≡ false }
        ensures kept { (j : ℕ) → kept self.new j ≡ (if j == k then Some rank else kept self.old j) }
        ensures counted { kept_count self.new ≡ kept_count self.old + 1 }
    {
        self.ranks[k] = Some(rank);
    }

    // The Betti numbers, once all ranks are kept.
    fn numbers(&self, l: &Lattice) -> Betti
        requires ranks { AreRanksOf l.now.facets self.now }
        requires all { (k : ℕ) → 1 ≤ k → k < size l.now.facets → IsTrue (is_some (kept self.now k)) }
        ensures { map pos (numbers result) ≡ betti_vector l.now.facets }
    {
        let mut betti = Betti::new();
        for k in 0..l.size() {
            betti.push(self.number(l, k));
        }
        betti
    }

    // b_k, once all ranks are kept.
    fn number(&self, l: &Lattice, k: usize) -> u64
        requires simplices { IsTrue (list_all is_simplex l.now.facets) }
        requires inside { k < 12 }
        requires ranks { AreRanksOf l.now.facets self.now }
        requires all { (j : ℕ) → 1 ≤ j → j < size l.now.facets → IsTrue (is_some (kept self.now j)) }
        ensures { pos result ≡ betti_number l.now.facets k }
    {
        let faces = l.face_count(k + 1);
        let boundaries = self.rank(k) + self.rank(k + 1);
        (faces - boundaries) as u64
    }

    // rank(k) where it is kept, and else 0, which it is at k = 0 and above the dimension.
    fn rank(&self, k: usize) -> usize
        ensures { result ≡ unwrap_or (kept self.now k) 0 }
    {
        self.kept(k).unwrap_or(0)
    }
}

// The fault of the least dimension with too many faces.
fn limit_fault(l: &Lattice) -> Option<BettiFault>
    ensures { result ≡ limit_fault l.now.facets }
{
    for k in 0..l.size() {
        if l.face_count(k + 1) > SIDE_LIMIT {
            return Some(BettiFault::RankLimit { k });
        }
    }
    None
}
