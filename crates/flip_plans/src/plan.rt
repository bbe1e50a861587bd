ghost use Rattle.std.specs.Prelude.{◌≡◌, ◌+◌, ◌^◌, ◌<◌, ℕ, List, None, Some, IsSome, IsTrue, OnOk, length, slice_index_or};
ghost use Rattle.simplex.specs.Simplex.{union};
ghost use Rattle.facet_set.specs.Flips.{flip as flipped};
ghost use Rattle.facet_set.specs.Star.{lies_in_join};
ghost use Rattle.face_lattice.specs.Lattice.{askers_in, id_in, AreIdsNeeded};
ghost use Rattle.flip_plans.specs.Askers.{wanted};
ghost use Rattle.flip_plans.specs.Plans.{AreAskers, AreNoted, IsPlanOf};
ghost use Rattle.flip_plans.specs.Steps.{given_up, HasMore, IsChangeBy};
ghost use Rattle.flip_plans.specs.Turns.{IsAllowed};

use crate::asked::{wanted_after, wanted_before};
use crate::steps::{add_far, add_near, give_up, is_open};
use face_lattice::Lattice;
use simplex::{Flip, Memory, Simplex};
use std::alloc::Global;

/// That the face with the id asks for the set.
#[derive(Clone, Copy, Debug)]
pub struct Asking {
    pub asker: u32,
    pub set: Simplex,
}

/// That the face gets an option of the class, or loses it.
#[derive(Clone, Copy, Debug)]
pub struct SetChange {
    pub class: usize,
    pub face: Simplex,
    pub comes: bool,
}

/// What a flip changes beside facets: who ceases to ask for what, who begins to, and which options of the classes from 1 on
/// come and go.
#[derive(Debug, Drop)]
pub struct Plan {
    pub asks_go: Vec<Asking>,
    pub asks_come: Vec<Asking>,
    pub changes: Vec<SetChange>,
}

impl Plan {
    ghost use Rattle.std.specs.Prelude.{◌≡◌, [], ◌++◌};

    /// The plan of no change. It takes no memory.
    pub fn new(alloc: Global) -> Plan
        ensures go { result.asks_go.items ≡ [] }
        ensures come { result.asks_come.items ≡ [] }
        ensures changes { result.changes.items ≡ [] }
    {
        Plan {
            asks_go: Vec::new(alloc),
            asks_come: Vec::new(alloc),
            changes: Vec::new(alloc),
        }
    }

    /// Works out what the flip changes, from the tables before it, in place of what the plan had. `labels` are those of A and B,
    /// and `ids` those of the sets of these, of which all but the whole have one. What is looked at are these sets and the faces
    /// that ask for one of them.
    pub fn work_out(
        &mut self,
        l: &Lattice,
        flip: &Flip,
        labels: &[u32],
        ids: &[Option<u32>],
    ) -> Result<(), Memory>
        requires allowed { IsAllowed l.now.facets flip.now }
        requires askers { AreAskers l.now.facets (id_in l.now) (askers_in l.now) }
        requires whole { labels.now ≡ union flip.now.a flip.now.b }
        requires ids { AreNoted (id_in l.now) labels.now ids.now }
        ensures { OnOk result (IsPlanOf l.now.facets flip.now (id_in l.now)
            self.new.asks_go.items self.new.asks_come.items self.new.changes.items) }
    {
        self.asks_go.clear();
        self.asks_come.clear();
        self.changes.clear();
        // That what is a face has an id.
        let _needed = l.id(&flip.a);
        for id in ids {
            if let Some(id) = id {
                let s = l.simplex_of(*id);
                self.add(l, flip, labels, *id, &s)?;
            }
        }
        Ok(())
    }

    // Adds what changes at a set of the join, and at those that ask for it.
    fn add(
        &mut self,
        l: &Lattice,
        flip: &Flip,
        labels: &[u32],
        id: u32,
        s: &Simplex,
    ) -> Result<(), Memory>
        requires allowed { IsAllowed l.now.facets flip.now }
        requires askers { AreAskers l.now.facets (id_in l.now) (askers_in l.now) }
        requires needed { AreIdsNeeded l.now }
        requires whole { labels.now ≡ union flip.now.a flip.now.b }
        requires id { id_in l.now s.now ≡ Some id }
        requires inside { IsTrue (lies_in_join flip.now.a flip.now.b s.now) }
        ensures go { OnOk result (self.new.asks_go.items ≡ self.old.asks_go.items
            ++ given_up id (wanted l.now.facets s.now) (wanted (flipped l.now.facets flip.now.a flip.now.b) s.now)) }
        ensures come { OnOk result (self.new.asks_come.items ≡ self.old.asks_come.items
            ++ given_up id (wanted (flipped l.now.facets flip.now.a flip.now.b) s.now) (wanted l.now.facets s.now)) }
        ensures changes { OnOk result (HasMore (IsChangeBy l.now.facets flip.now s.now) self.old.changes.items self.new.changes.items) }
    {
        let facet_len = labels.len() - 1;
        let degree = l.degree_of(id);
        let up = l.up_of(id);
        let before = wanted_before(facet_len, s, degree, up);
        let after = wanted_after(flip, labels, s, degree, up);
        give_up(&mut self.asks_go, id, &before, &after)?;
        give_up(&mut self.asks_come, id, &after, &before)?;
        let had = is_open(l, flip, &flip.b, &before);
        let has = is_open(l, flip, &flip.a, &after);
        add_near(&mut self.changes, facet_len, s, had, has)?;
        add_far(&mut self.changes, l, flip, facet_len, id, s)?;
        Ok(())
    }
}
