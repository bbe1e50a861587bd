// The greedy Morse list. The order is own.
ghost use Rattle.std.specs.Prelude.{◌≡◌, ◌⊎◌, ◌<◌, ℕ, List, false, length, IfOk, IfSome, IfNone, OnOk, IsTrue};
ghost use Rattle.simplex.specs.Members.{In};
ghost use Rattle.simplex.specs.Simplex.{is_simplex};
ghost use Rattle.facet_set.specs.Complex.{faces};
ghost use Rattle.collapse_moves.specs.Collapses.{is_free};
ghost use Rattle.betti_tables.specs.Ranks.{column};
ghost use Rattle.morse_lists.specs.Morse.{is_bare, is_morse_list, is_possible, is_top, after_step};
ghost use Rattle.morse_lists.specs.Greedy.{IsFirst, IsGreedyList, IsGreedyCollapse, IsGreedyDrop};
ghost use Rattle.morse_lists.specs.Queues.{Grows, IsReady, IsReadyBut, Waits};

use crate::face_queue::FaceQueue;
use crate::face_table::FaceTable;
use crate::{MorseStep, MorseSteps};
use facet_set::Facets;
use simplex::{Memory, Simplex};
use std::alloc::Global;

/// The greedy Morse list: at each complex the least of the free faces with the most labels, and where none is free, the least
/// of the facets with the most labels, as critical. It takes time in proportion to the number of faces times its logarithm.
pub fn greedy_morse(alloc: Global, c: &Facets) -> Result<MorseSteps, Memory>
    ensures greedy { IfOk result (λ steps. IsGreedyList c.now steps) }
    ensures morse { IfOk result (λ steps. IsTrue (is_morse_list c.now steps)) }
{
    let mut search = Search::of(alloc, c)?;
    let mut steps = MorseSteps::new(alloc);
    while let Some(step) = search.next_step() {
        search.take(&step)?;
        steps.push(step)?;
    }
    Ok(steps)
}

// A complex that goes down, and what waits for its next steps. What waits may be gone, or be neither free nor a facet.
#[derive(Drop)]
struct Search {
    faces: FaceTable,
    free: FaceQueue,
    tops: FaceQueue,
}

impl Search {
    fn of(alloc: Global, c: &Facets) -> Result<Search, Memory>
        ensures faces { IfOk result (λ s. s.faces ≡ c.now) }
        ensures ready { IfOk result (λ s. IsReady s.faces s.free s.tops) }
    {
        let mut search = Search {
            faces: FaceTable::of(alloc, c)?,
            free: FaceQueue::new(alloc),
            tops: FaceQueue::new(alloc),
        };
        for facet in c.as_slice() {
            search.add_facet(facet)?;
        }
        Ok(search)
    }

    // Lets a facet wait, and what has one label less.
    fn add_facet(&mut self, facet: &Simplex) -> Result<(), Memory>
        ensures faces { self.new.faces ≡ self.old.faces }
        ensures free_stay { OnOk result (Grows self.old.free self.new.free) }
        ensures tops_stay { OnOk result (Grows self.old.tops self.new.tops) }
        ensures top { OnOk result (In facet.now self.new.tops) }
        ensures below { OnOk result ((s : List ℕ) → In s (column facet.now) → Waits self.old.faces self.new.free self.new.tops s) }
    {
        self.tops.push(facet)?;
        self.add_below(facet)
    }

    // Lets each free face and each facet wait that has one label less.
    fn add_below(&mut self, face: &Simplex) -> Result<(), Memory>
        ensures faces { self.new.faces ≡ self.old.faces }
        ensures free_stay { OnOk result (Grows self.old.free self.new.free) }
        ensures tops_stay { OnOk result (Grows self.old.tops self.new.tops) }
        ensures below { OnOk result ((s : List ℕ) → In s (column face.now) → Waits self.old.faces self.new.free self.new.tops s) }
    {
        for label in face.labels() {
            self.add(&face.without(*label))?;
        }
        Ok(())
    }

    // Lets a face wait, where it is free or a facet.
    fn add(&mut self, s: &Simplex) -> Result<(), Memory>
        ensures faces { self.new.faces ≡ self.old.faces }
        ensures free_stay { OnOk result (Grows self.old.free self.new.free) }
        ensures tops_stay { OnOk result (Grows self.old.tops self.new.tops) }
        ensures waits { OnOk result (Waits self.old.faces self.new.free self.new.tops s.now) }
    {
        if self.faces.is_free(s) {
            self.free.push(s)?;
        }
        if self.faces.is_top(s) {
            self.tops.push(s)?;
        }
        Ok(())
    }

    // The greedy step. None exactly where no nonempty face is left.
    fn next_step(&mut self) -> Option<MorseStep>
        requires { IsReady self.old.faces self.old.free self.old.tops }
        ensures faces { self.new.faces ≡ self.old.faces }
        ensures step { IfSome result (λ m. IsGreedyCollapse self.old.faces m ⊎ IsGreedyDrop self.old.faces m) }
        ensures possible { IfSome result (λ m. IsTrue (is_possible self.old.faces m)) }
        ensures ready { IfSome result (λ m. IsReadyBut m.low self.new.faces self.new.free self.new.tops) }
        ensures none { IfNone result (IsTrue (is_bare self.old.faces)) }
    {
        if let Some(step) = next_collapse(&self.faces, &mut self.free) {
            return Some(step);
        }
        match next_facet(&self.faces, &mut self.tops) {
            Some(facet) => Some(MorseStep {
                low: facet,
                high: facet,
            }),
            None => None,
        }
    }

    // Takes the step, and lets all wait that is free or a facet by it.
    fn take(&mut self, step: &MorseStep) -> Result<(), Memory>
        requires possible { IsTrue (is_possible self.old.faces step.now) }
        requires ready { IsReadyBut step.now.low self.old.faces self.old.free self.old.tops }
        ensures faces { self.new.faces ≡ after_step self.old.faces step.now }
        ensures ready { OnOk result (IsReady self.new.faces self.new.free self.new.tops) }
        ensures fewer { length (faces self.new.faces) < length (faces self.old.faces) }
    {
        self.faces.take(step);
        self.add_below(&step.high)?;
        self.add_below(&step.low)?;
        Ok(())
    }
}

// The collapse at the first free face, of those that wait. None exactly where none is free.
fn next_collapse(table: &FaceTable, queue: &mut FaceQueue) -> Option<MorseStep>
    requires { (s : List ℕ) → IsTrue (is_simplex s) → IsTrue (is_free table.now s) → In s queue.old }
    ensures step { IfSome result (IsGreedyCollapse table.now) }
    ensures wait { IfSome result (λ m. (s : List ℕ) → IsTrue (is_simplex s) → IsTrue (is_free table.now s) → (s ≡ m.low) ⊎ In s queue.new) }
    ensures none { IfNone result ((s : List ℕ) → IsTrue (is_simplex s) → is_free table.now s ≡ false) }
{
    while let Some(low) = queue.pop() {
        if let Some(high) = table.partner(&low) {
            return Some(MorseStep { low, high });
        }
    }
    None
}

// The first nonempty facet, of those that wait. None exactly where there is none.
fn next_facet(table: &FaceTable, queue: &mut FaceQueue) -> Option<Simplex>
    requires { (s : List ℕ) → IsTrue (is_simplex s) → IsTrue (is_top table.now s) → In s queue.old }
    ensures first { IfSome result (IsFirst (is_top table.now)) }
    ensures wait { IfSome result (λ f. (s : List ℕ) → IsTrue (is_simplex s) → IsTrue (is_top table.now s) → (s ≡ f) ⊎ In s queue.new) }
    ensures none { IfNone result ((s : List ℕ) → IsTrue (is_simplex s) → is_top table.now s ≡ false) }
{
    while let Some(facet) = queue.pop() {
        if table.is_top(&facet) {
            return Some(facet);
        }
    }
    None
}
