// A walk on its way.
ghost use Rattle.std.specs.Prelude.{◌≡◌, ◌≤◌, ◌<◌, None, IsTrue, OnOk};
ghost use Rattle.simplex.specs.FirstFailing.{first_failing};
ghost use Rattle.simplex.specs.Simplex.{is_simplex};
ghost use Rattle.flip_rules.specs.Tests.{flip_tests};
ghost use Rattle.flip_table.specs.Session.{committed, staged_with};

use crate::picking::pick;
use flip_table::{Session, StageFault};
use seeded_words::Words;
use simplex::{Flip, Memory, Steps};
use std::sync::ledger::Ledger;

// The session has made the flips of its journal, from the start of the walk.
#[derive(Debug, Drop)]
pub struct Course {
    pub session: Session,
    pub words: Words,
    pub heat: u64,
    // The number of labels of each facet.
    pub size: usize,
    // How few facets a complex on the walk has had, and the number of flips to the first such complex.
    pub fewest: usize,
    pub place: usize,
}

impl Course {
    ghost use Rattle.std.specs.Prelude.{◌≡◌, ◌≤◌, ◌<◌, length, nat_lt, Some, None, IsTrue, IsSome, OnOk, if◌then◌else◌};
    ghost use Rattle.std.specs.List.{list_all};
    ghost use Rattle.simplex.specs.FirstFailing.{first_failing};
    ghost use Rattle.simplex.specs.Simplex.{is_simplex};
    ghost use Rattle.facet_set.specs.Complex.{is_complex};
    ghost use Rattle.facet_set.specs.Numbers.{size};
    ghost use Rattle.facet_set.specs.Flips.{is_simplex_boundary};
    ghost use Rattle.flip_rules.specs.Tests.{flip_tests};
    ghost use Rattle.seeded_words.specs.Words.{word, after_word, words_from};
    ghost use Rattle.annealer.specs.Walk.{pick, flips_by};
    ghost use Rattle.annealer.specs.Course.{IsOnWalk, IsStep, IsAtEnd};

    // Walks on, to the first simplex boundary or as many flips as the budget.
    #[tactic(auto, using(crate::proofs::CourseLaws::on_staged, crate::proofs::CourseLaws::on_some, crate::proofs::CourseLaws::on_bound, crate::proofs::CourseLaws::on_picks, crate::proofs::CourseLaws::at_boundary, crate::proofs::CourseLaws::at_budget, crate::proofs::CourseLaws::on_walk_step))]
    pub fn run<L: Ledger>(&mut self, budget: u64, steps: &mut Steps<L>) -> Result<(), Memory>
        requires { IsOnWalk self.old.session.present (flips_by self.old.session.present self.old.heat (words_from budget self.old.words)) budget budget self.old }
        ensures { OnOk result (IsAtEnd self.old.session.present (flips_by self.old.session.present self.old.heat (words_from budget self.old.words)) budget self.new) }
    {
        for _ in 0..budget {
            if self.has_met() {
                return Ok(());
            }
            self.step(steps)?;
        }
        Ok(())
    }

    pub fn has_met(&self) -> bool
        ensures { result ≡ is_simplex_boundary self.now.session.present }
    {
        self.session.is_simplex_boundary()
    }

    // One flip.
    #[tactic(auto, using(crate::proofs::CourseLaws::passes_allowed))]
    fn step<L: Ledger>(&mut self, steps: &mut Steps<L>) -> Result<(), Memory>
        requires staged { self.old.session.staged ≡ None }
        requires size { self.old.size ≡ size self.old.session.present }
        requires some { 0 < self.old.size }
        requires bound { self.old.size ≤ 12 }
        requires picks { IsSome (pick self.old.session.present self.old.heat (word self.old.words)) }
        ensures { OnOk result (IsStep self.old self.new) }
    {
        let flip = self.choose();
        make(&mut self.session, &flip, steps)?;
        self.compare();
        Ok(())
    }

    // The next flip.
    fn choose(&mut self) -> Flip
        requires size { self.old.size ≡ size self.old.session.present }
        requires some { 0 < self.old.size }
        requires bound { self.old.size ≤ 12 }
        requires picks { IsSome (pick self.old.session.present self.old.heat (word self.old.words)) }
        ensures picked { pick self.old.session.present self.old.heat (word self.old.words) ≡ Some (result, self.new.heat) }
        ensures passes { first_failing (flip_tests self.old.session.present result) ≡ None }
        ensures others { self.new ≡ record self.old { words = after_word self.old.words; heat = self.new.heat } }
    {
        let word = self.words.next();
        match pick(&self.session, self.size, self.heat, word) {
            Some((flip, heat)) => {
                self.heat = heat;
                flip
            }
            None => unreachable!(),
        }
    }

    // Keeps the number of facets, where there were never so few.
    fn compare(&mut self)
        ensures fewest { self.new.fewest ≡ (if nat_lt (length self.old.session.present) self.old.fewest then length self.old.session.present else self.old.fewest) }
        ensures place { self.new.place ≡ (if nat_lt (length self.old.session.present) self.old.fewest then length self.old.session.journal else self.old.place) }
        ensures others { self.new ≡ record self.old { fewest = self.new.fewest; place = self.new.place } }
        ensures simplices { IsTrue (list_all is_simplex self.old.session.present) }
        ensures complex { IsTrue (is_complex self.old.session.present) }
    {
        let count = self.session.facet_count();
        if count < self.fewest {
            self.fewest = count;
            self.place = self.session.mark();
        }
    }
}

// Makes a flip that is allowed.
pub fn make<L: Ledger>(
    session: &mut Session,
    flip: &Flip,
    steps: &mut Steps<L>,
) -> Result<(), Memory>
    requires staged { session.old.staged ≡ None }
    requires passes { first_failing (flip_tests session.old.present flip.now) ≡ None }
    ensures value { OnOk result (session.new ≡ committed (staged_with flip.now session.old)) }
    ensures a { IsTrue (is_simplex flip.now.a) }
    ensures b { IsTrue (is_simplex flip.now.b) }
{
    let _lens = (flip.a.len(), flip.b.len());
    match session.stage(flip, steps) {
        Ok(()) => {
            session.commit(steps);
            Ok(())
        }
        Err(StageFault::Memory) => Err(Memory),
        Err(StageFault::Refused(_)) => unreachable!(),
    }
}
