ghost use Rattle.std.specs.Prelude.{◌≡◌, false, OnOk, OnErr, MatchOption};
ghost use Rattle.shell_names.specs.State.{holds, put_entry};
ghost use Rattle.shell_names.specs.Sums.{StandsAt};

use crate::entry::Entry;
use facet_set::Facets;
use plain_text::Name;
use simplex::Memory;
use std::alloc::Global;
use std::marker::Model;

/// The names that a shell holds, in the order of naming, each with its complexes. A name is found by a search from the first on: a shell holds few, and
/// its limit is 256.
#[derive(Debug, Drop)]
pub struct Names {
    entries: Vec<Entry>,
    weight: u64,
    journal: u64,
}

impl Model for Names {
    ghost use Rattle.shell_names.specs.State.{State};
    ghost use Rattle.shell_names.specs.Sums.{AreSums};

    ghost Value = { State };

    ghost view = { λ n. n.entries.items };

    ghost invariant = { λ n. AreSums n.entries.items n.weight n.journal };
}

impl Names {
    ghost use Rattle.std.specs.Prelude.{◌≡◌, ◌≤◌, ◌<◌, ◌^◌, ◌-◌, ◌==◌, min, [], length, nat_lt, is_some, IsTrue, IsSome, IfSome, IfOk, OnOk, OnErr, MatchOption, true, false, ◌+◌};
    ghost use Rattle.facet_set.specs.Numbers.{weight, weight_limit};
    ghost use Rattle.shell_names.specs.Limits.{journal_limit};
    ghost use Rattle.shell_names.specs.State.{holds, entry, present, put_entry, assign, edited, undone, redone, journal_of, total_weight, journal};

    /// No names. It takes no memory.
    pub fn new(alloc: Global) -> Names
        ensures { result ≡ [] }
    {
        Names {
            entries: Vec::new(alloc),
            weight: 0,
            journal: 0,
        }
    }

    /// The number of names.
    pub fn len(&self) -> usize
        ensures { result ≡ length self.now }
    {
        self.entries.len()
    }

    /// Whether there is no name.
    pub fn is_empty(&self) -> bool
        ensures { result ≡ (length self.now == 0) }
    {
        self.entries.is_empty()
    }

    /// Whether the name is held.
    pub fn holds(&self, name: &Name) -> bool
        ensures { result ≡ holds self.now name.now }
    {
        self.entries.iter().any(|entry| entry.is_named(name))
    }

    /// The present complex of the name. None exactly where it is not held.
    pub fn present(&self, name: &Name) -> Option<&Facets>
        ensures held { is_some result ≡ holds self.now name.now }
        ensures value { IfSome result (λ c. c.now ≡ present self.now name.now) }
    {
        Some(self.entry(name)?.present())
    }

    /// The number of past complexes of the name. None exactly where it is not held.
    pub fn past_len(&self, name: &Name) -> Option<usize>
        ensures held { is_some result ≡ holds self.now name.now }
        ensures value { IfSome result (λ n. n ≡ length (entry self.now name.now).past) }
    {
        Some(self.entry(name)?.past_len())
    }

    /// The number of future complexes of the name. None exactly where it is not held.
    pub fn future_len(&self, name: &Name) -> Option<usize>
        ensures held { is_some result ≡ holds self.now name.now }
        ensures value { IfSome result (λ n. n ≡ length (entry self.now name.now).future) }
    {
        Some(self.entry(name)?.future_len())
    }

    /// The complex that `undo` makes the present one of the name. None exactly where the name is not held or has no past.
    pub fn undone(&self, name: &Name) -> Option<&Facets>
        ensures some { is_some result ≡ nat_lt 0 (length (entry self.now name.now).past) }
        ensures value { IfSome result (λ c. c.now ≡ (undone (entry self.now name.now)).present) }
    {
        match self.entry(name) {
            Some(entry) => entry.undone(),
            None => None,
        }
    }

    /// The complex that `redo` makes the present one of the name. None exactly where the name is not held or has no future.
    pub fn redone(&self, name: &Name) -> Option<&Facets>
        ensures some { is_some result ≡ nat_lt 0 (length (entry self.now name.now).future) }
        ensures value { IfSome result (λ c. c.now ≡ (redone (entry self.now name.now)).present) }
    {
        match self.entry(name) {
            Some(entry) => entry.redone(),
            None => None,
        }
    }

    /// The sum of the weights of the present complexes.
    pub fn weight(&self) -> u64
        ensures value { result ≡ total_weight self.now }
        ensures limit { total_weight self.now ≤ weight_limit }
    {
        self.weight
    }

    /// The sum of the sizes of all changes between neighbours in past, present and future.
    pub fn journal(&self) -> u64
        ensures value { result ≡ journal self.now }
        ensures limit { journal self.now ≤ journal_limit }
    {
        self.journal
    }

    /// What `weight` would be with this present complex of the name, or the greatest number where that is more.
    pub fn weight_after(&self, name: &Name, next: &Facets) -> u64
        ensures assigned { result ≡ min (total_weight (assign name.now next.now self.now)) (2 ^ 64 - 1) }
        ensures edited { result ≡ min (total_weight (put_entry (edited (entry self.now name.now) next.now) self.now)) (2 ^ 64 - 1) }
    {
        self.weight_without(name).saturating_add(next.weight())
    }

    /// What `weight` would be after `undo`, or the greatest number where that is more.
    pub fn weight_after_undo(&self, name: &Name) -> u64
        ensures { result ≡ min (total_weight (put_entry (undone (entry self.now name.now)) self.now)) (2 ^ 64 - 1) }
    {
        match self.entry(name) {
            Some(entry) => self
                .weight_without(name)
                .saturating_add(entry.undone_weight()),
            None => self.weight,
        }
    }

    /// What `weight` would be after `redo`, or the greatest number where that is more.
    pub fn weight_after_redo(&self, name: &Name) -> u64
        ensures { result ≡ min (total_weight (put_entry (redone (entry self.now name.now)) self.now)) (2 ^ 64 - 1) }
    {
        match self.entry(name) {
            Some(entry) => self
                .weight_without(name)
                .saturating_add(entry.redone_weight()),
            None => self.weight,
        }
    }

    /// What `journal` would be after `edit`, or the greatest number where that is more.
    pub fn journal_after_edit(&self, name: &Name, next: &Facets) -> Result<u64, Memory>
        requires held { IsTrue (holds self.now name.now) }
        ensures { IfOk result (λ n. n ≡ min (journal (put_entry (edited (entry self.now name.now) next.now) self.now)) (2 ^ 64 - 1)) }
    {
        match self.entry(name) {
            Some(entry) => {
                let edited = entry.edited_journal(next)?;
                Ok(self.journal_without(name).saturating_add(edited))
            }
            None => Ok(self.journal),
        }
    }

    /// Gives the name this complex, with an empty past and future. A name that was held keeps its place, and another one comes last. An `Err` changes
    /// nothing.
    pub fn assign(&mut self, name: &Name, next: Facets) -> Result<(), Memory>
        requires weight { total_weight (assign name.now next self.old) ≤ weight_limit }
        ensures ok { OnOk result (self.new ≡ assign name.now next self.old) }
        ensures err { OnErr result (self.new ≡ self.old) }
    {
        let weight = self.weight_after(name, &next);
        let journal = self.journal_without(name);
        let entry = Entry::new(*self.entries.allocator(), *name, next);
        put(&mut self.entries, name, entry)?;
        self.weight = weight;
        self.journal = journal;
        Ok(())
    }

    /// Makes this complex the present one of the name. The one before becomes the latest of the past, and the future is emptied. An `Err` changes nothing.
    pub fn edit(&mut self, name: &Name, next: Facets) -> Result<(), Memory>
        requires held { IsTrue (holds self.old name.now) }
        requires weight { total_weight (put_entry (edited (entry self.old name.now) next) self.old) ≤ weight_limit }
        requires journal { journal (put_entry (edited (entry self.old name.now) next) self.old) ≤ journal_limit }
        ensures ok { OnOk result (self.new ≡ put_entry (edited (entry self.old name.now) next) self.old) }
        ensures err { OnErr result (self.new ≡ self.old) }
    {
        let weight = self.weight_after(name, &next);
        let journal = self.journal_without(name);
        if let Some(place) = place_of(&self.entries, name) {
            let entry = &mut self.entries[place];
            entry.edit(next)?;
            self.journal = journal + entry.journal();
            self.weight = weight;
        }
        Ok(())
    }

    /// Makes the latest past complex of the name the present one, which becomes the next of the future. An `Err` changes nothing.
    pub fn undo(&mut self, name: &Name) -> Result<(), Memory>
        requires held { IsTrue (holds self.old name.now) }
        requires past { 0 < length (entry self.old name.now).past }
        requires weight { total_weight (put_entry (undone (entry self.old name.now)) self.old) ≤ weight_limit }
        ensures ok { OnOk result (self.new ≡ put_entry (undone (entry self.old name.now)) self.old) }
        ensures err { OnErr result (self.new ≡ self.old) }
    {
        let weight = self.weight_after_undo(name);
        if let Some(place) = place_of(&self.entries, name) {
            let entry = &mut self.entries[place];
            entry.undo()?;
            self.weight = weight;
        }
        Ok(())
    }

    /// Makes the next future complex of the name the present one, which becomes the latest of the past. An `Err` changes nothing.
    pub fn redo(&mut self, name: &Name) -> Result<(), Memory>
        requires held { IsTrue (holds self.old name.now) }
        requires future { 0 < length (entry self.old name.now).future }
        requires weight { total_weight (put_entry (redone (entry self.old name.now)) self.old) ≤ weight_limit }
        ensures ok { OnOk result (self.new ≡ put_entry (redone (entry self.old name.now)) self.old) }
        ensures err { OnErr result (self.new ≡ self.old) }
    {
        let weight = self.weight_after_redo(name);
        if let Some(place) = place_of(&self.entries, name) {
            let entry = &mut self.entries[place];
            entry.redo()?;
            self.weight = weight;
        }
        Ok(())
    }

    fn entry(&self, name: &Name) -> Option<&Entry>
        ensures { MatchOption result (holds self.now name.now ≡ false) (λ e. (holds self.now name.now ≡ true) × (e.now ≡ entry self.now name.now)) }
    {
        Some(&self.entries[place_of(&self.entries, name)?])
    }

    /// The sum of the weights of the present complexes of the other names.
    pub fn weight_without(&self, name: &Name) -> u64
        ensures { result + weight (present self.now name.now) ≡ total_weight self.now }
    {
        match self.entry(name) {
            Some(entry) => self.weight - entry.present().weight(),
            None => self.weight,
        }
    }

    // The sum of the sizes of all changes of the other names.
    fn journal_without(&self, name: &Name) -> u64
        ensures { result + journal_of (entry self.now name.now) ≡ journal self.now }
    {
        match self.entry(name) {
            Some(entry) => self.journal - entry.journal(),
            None => self.journal,
        }
    }
}

// The place of the name, from 0.
fn place_of(entries: &[Entry], name: &Name) -> Option<usize>
    ensures { MatchOption result (holds entries.now name.now ≡ false) (StandsAt entries.now name.now) }
{
    entries.iter().position(|entry| entry.is_named(name))
}

// Puts the entry in place of the one with its name, or last where there is none. An `Err` changes nothing.
fn put(entries: &mut Vec<Entry>, name: &Name, entry: Entry) -> Result<(), Memory>
    requires { entry.name ≡ name.now }
    ensures ok { OnOk result (entries.new.items ≡ put_entry entry entries.old.items) }
    ensures err { OnErr result (entries.new.items ≡ entries.old.items) }
{
    match place_of(entries, name) {
        Some(place) => entries[place] = entry,
        None => entries.push(entry)?,
    }
    Ok(())
}
