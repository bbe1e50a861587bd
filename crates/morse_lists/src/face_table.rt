use crate::MorseStep;
use crate::all_faces::all_faces;
use crate::cells::{Cells, cells_of, lower, partner_by};
use facet_set::Facets;
use simplex::{LEN_LIMIT, Memory, Simplex};
use std::alloc::Global;
use std::marker::Model;

/// The faces of a complex that goes down step by step, and what is kept at each. Contracts see the complex.
#[derive(Drop)]
pub struct FaceTable {
    cells: Cells,
}

impl Model for FaceTable {
    ghost use Rattle.std.specs.Prelude.{List, ℕ};
    ghost use Rattle.morse_lists.specs.Cells.{complex_in, IsTable};

    ghost Value = { List (List ℕ) };

    ghost view = { λ t. complex_in t.cells };

    ghost invariant = { λ t. IsTable t.cells };
}

impl FaceTable {
    ghost use Rattle.std.specs.Prelude.{◌≡◌, IfOk, IsTrue};
    ghost use Rattle.simplex.specs.Simplex.{is_simplex};
    ghost use Rattle.facet_set.specs.Complex.{stands_in};
    ghost use Rattle.facet_set.specs.Facets.{IsFacets};
    ghost use Rattle.collapse_moves.specs.Collapses.{drop_face, is_free};
    ghost use Rattle.morse_lists.specs.Morse.{is_bare, is_possible, is_top, free_partner, after_step};

    /// The table of a complex.
    pub fn of(alloc: Global, c: &Facets) -> Result<FaceTable, Memory>
        ensures value { IfOk result (λ t. t ≡ c.now) }
        ensures facets { IsFacets c.now }
    {
        let faces = all_faces(alloc, c)?;
        let cells = cells_of(alloc, &faces)?;
        Ok(FaceTable { cells })
    }

    /// Whether no nonempty face is left.
    pub fn is_bare(&self) -> bool
        ensures { result ≡ is_bare self.now }
    {
        match self.cells.get(&Simplex::EMPTY) {
            Some(cell) => cell.count == 0,
            None => true,
        }
    }

    /// Whether the simplex is a nonempty facet.
    pub fn is_top(&self, s: &Simplex) -> bool
        ensures { result ≡ is_top self.now s.now }
    {
        match self.cells.get(s) {
            Some(cell) => !s.is_empty() && cell.count == 0,
            None => false,
        }
    }

    /// The face in which alone a free face lies properly. None exactly where the simplex is no free face.
    pub fn partner(&self, s: &Simplex) -> Option<Simplex>
        ensures { result ≡ free_partner self.now s.now }
    {
        prove!(s.len() <= LEN_LIMIT);
        match self.cells.get(s) {
            Some(cell) => partner_by(cell, s),
            None => None,
        }
    }

    /// Whether the simplex is a free face.
    pub fn is_free(&self, s: &Simplex) -> bool
        ensures { result ≡ is_free self.now s.now }
    {
        self.partner(s).is_some()
    }

    // Takes a facet out.
    fn drop_facet(&mut self, f: &Simplex)
        requires { IsTrue (stands_in self.old f.now) }
        ensures { self.new ≡ drop_face self.old f.now }
    {
        lower(&mut self.cells, f);
        self.cells.remove(f);
    }

    /// Whether the step is possible.
    pub fn is_possible(&self, step: &MorseStep) -> bool
        ensures { result ≡ is_possible self.now step.now }
    {
        if step.is_critical() {
            return self.is_top(&step.low);
        }
        match self.partner(&step.low) {
            Some(high) => high == step.high,
            None => false,
        }
    }

    /// Takes a step that is possible.
    pub fn take(&mut self, step: &MorseStep)
        requires { IsTrue (is_possible self.old step.now) }
        ensures value { self.new ≡ after_step self.old step.now }
        ensures simplex { IsTrue (is_simplex step.now.low) }
    {
        let _table = &self.cells;
        prove!(step.low.len() <= LEN_LIMIT);
        self.drop_facet(&step.high);
        if !step.is_critical() {
            self.drop_facet(&step.low);
        }
    }
}
