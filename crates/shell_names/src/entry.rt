ghost use Rattle.std.specs.Prelude.{◌≡◌, ◌^◌, ◌-◌, min, IfOk};
ghost use Rattle.facet_set.specs.Change.{apart};

use crate::trail::Trail;
use facet_set::Facets;
use plain_text::Name;
use simplex::Memory;
use std::alloc::Global;
use std::marker::Model;

// A name with its complexes.
#[derive(Debug, Drop)]
pub struct Entry {
    name: Name,
    past: Trail,
    present: Facets,
    future: Trail,
}

impl Model for Entry {
    ghost use Rattle.shell_names.specs.State.{Named};
    ghost use Rattle.shell_names.specs.Steps.{complexes, IsEntry};

    ghost Value = { Named };

    ghost view = { λ e. record {
      name = e.name;
      past = complexes e.past;
      present = e.present;
      future = complexes e.future;
    } };

    ghost invariant = { λ e. IsEntry e.present e.past e.future };
}

impl Entry {
    ghost use Rattle.std.specs.Prelude.{◌≡◌, ◌≤◌, ◌<◌, ◌^◌, ◌-◌, min, length, nat_lt, is_some, IfSome, IfOk, OnOk, OnErr};
    ghost use Rattle.plain_text.specs.Bytes.{is_text};
    ghost use Rattle.facet_set.specs.Numbers.{weight};
    ghost use Rattle.shell_names.specs.Limits.{journal_limit};
    ghost use Rattle.shell_names.specs.State.{named, edited, undone, redone, journal_of};

    pub fn new(alloc: Global, name: Name, present: Facets) -> Entry
        ensures { result ≡ named name present }
    {
        Entry {
            name,
            past: Trail::new(alloc),
            present,
            future: Trail::new(alloc),
        }
    }

    pub fn is_named(&self, name: &Name) -> bool
        ensures { result ≡ is_text self.now.name name.now }
    {
        self.name == *name
    }

    pub fn present(&self) -> &Facets
        ensures { result.now ≡ self.now.present }
    {
        &self.present
    }

    pub fn past_len(&self) -> usize
        ensures { result ≡ length self.now.past }
    {
        self.past.len()
    }

    pub fn future_len(&self) -> usize
        ensures { result ≡ length self.now.future }
    {
        self.future.len()
    }

    // The sizes of all changes.
    pub fn journal(&self) -> u64
        ensures value { result ≡ journal_of self.now }
        ensures few { journal_of self.now ≤ journal_limit }
    {
        self.past.total() + self.future.total()
    }

    // What `journal` would be after the edit, or the greatest number where that is more.
    pub fn edited_journal(&self, next: &Facets) -> Result<u64, Memory>
        ensures { IfOk result (λ n. n ≡ min (journal_of (edited self.now next.now)) (2 ^ 64 - 1)) }
    {
        let size = change_size(&self.present, next)?;
        Ok(self.past.total().saturating_add(size))
    }

    // The complex that `undo` makes the present one. None exactly where there is no past.
    pub fn undone(&self) -> Option<&Facets>
        ensures some { is_some result ≡ nat_lt 0 (length self.now.past) }
        ensures value { IfSome result (λ c. c.now ≡ (undone self.now).present) }
    {
        self.past.nearest()
    }

    // The complex that `redo` makes the present one. None exactly where there is no future.
    pub fn redone(&self) -> Option<&Facets>
        ensures some { is_some result ≡ nat_lt 0 (length self.now.future) }
        ensures value { IfSome result (λ c. c.now ≡ (redone self.now).present) }
    {
        self.future.nearest()
    }

    // The weight of the complex that `undo` makes the present one, or the greatest number where that is more.
    pub fn undone_weight(&self) -> u64
        ensures { result ≡ min (weight (undone self.now).present) (2 ^ 64 - 1) }
    {
        match self.past.nearest() {
            Some(complex) => complex.weight(),
            None => self.present.weight(),
        }
    }

    // The same for `redo`.
    pub fn redone_weight(&self) -> u64
        ensures { result ≡ min (weight (redone self.now).present) (2 ^ 64 - 1) }
    {
        match self.future.nearest() {
            Some(complex) => complex.weight(),
            None => self.present.weight(),
        }
    }

    // An `Err` changes nothing.
    pub fn edit(&mut self, next: Facets) -> Result<(), Memory>
        requires { journal_of (edited self.old next) ≤ journal_limit }
        ensures ok { OnOk result (self.new ≡ edited self.old next) }
        ensures err { OnErr result (self.new ≡ self.old) }
    {
        let size = change_size(&self.present, &next)?;
        self.past.advance(&mut self.present, next, size)?;
        self.future.clear();
        Ok(())
    }

    // An `Err` changes nothing.
    pub fn undo(&mut self) -> Result<(), Memory>
        requires { 0 < length self.old.past }
        ensures ok { OnOk result (self.new ≡ undone self.old) }
        ensures err { OnErr result (self.new ≡ self.old) }
        ensures journal { journal_of self.new ≡ journal_of self.old }
    {
        self.past.retreat(&mut self.present, &mut self.future)
    }

    // An `Err` changes nothing.
    pub fn redo(&mut self) -> Result<(), Memory>
        requires { 0 < length self.old.future }
        ensures ok { OnOk result (self.new ≡ redone self.old) }
        ensures err { OnErr result (self.new ≡ self.old) }
        ensures journal { journal_of self.new ≡ journal_of self.old }
    {
        self.future.retreat(&mut self.present, &mut self.past)
    }
}

// How many facets stand in exactly one of the complexes, or the greatest number where that is more.
fn change_size(from: &Facets, to: &Facets) -> Result<u64, Memory>
    ensures { IfOk result (λ n. n ≡ min (apart from.now to.now) (2 ^ 64 - 1)) }
{
    let change = from.difference(to)?;
    let gone = change.gone.len() as u64;
    let come = change.come.len() as u64;
    Ok(gone.saturating_add(come))
}
