// What is kept at each face: how many faces have one label more and contain it, and the sum of those labels.
ghost use Rattle.std.specs.Prelude.{◌≡◌, ◌<◌, ℕ, List, Some, None, length, IfOk, IsTrue, OnOk, if◌then◌else◌};
ghost use Rattle.std.specs.HashMap.{get};
ghost use Rattle.std.specs.List.{list_any};
ghost use Rattle.std.specs.Option.{option_map};
ghost use Rattle.simplex.specs.Simplex.{is_label};
ghost use Rattle.morse_lists.specs.Cells.{same, blank, more, less, with_labels, without_labels, extra, cell_at, partner_by};

use facet_set::with_label;
use simplex::{Memory, Simplex};
use std::alloc::Global;
use std::collections::HashMap;

/// The faces with one label more, in two numbers: how many they are, and the sum of the labels that they have more. Where
/// there is one alone, the sum is its label.
#[derive(Clone, Copy, Debug)]
pub struct Cell {
    pub count: u32,
    pub sum: u64,
}

/// A cell for each face.
pub type Cells = HashMap<Simplex, Cell>;

impl Cell {
    // The cell of a face that lies in no other.
    const BLANK: Cell = Cell { count: 0, sum: 0 };

    fn more(&self, label: u32) -> Result<Cell, Memory>
        ensures { IfOk result (λ cell. cell ≡ more label self.now) }
    {
        match (
            self.count.checked_add(1),
            self.sum.checked_add(label as u64),
        ) {
            (Some(count), Some(sum)) => Ok(Cell { count, sum }),
            _ => Err(Memory),
        }
    }

    fn less(&self, label: u32) -> Cell
        ensures { result ≡ less label self.now }
    {
        Cell {
            count: self.count.saturating_sub(1),
            sum: self.sum.saturating_sub(label as u64),
        }
    }
}

/// The simplex with the label of the one larger face, where it is not empty and there is one alone.
pub fn partner_by(cell: &Cell, s: &Simplex) -> Option<Simplex>
    requires label { cell.now.count ≡ 1 → IsTrue (is_label cell.now.sum) }
    requires short { cell.now.count ≡ 1 → length s.now < 12 }
    ensures { result ≡ partner_by cell.now s.now }
{
    if s.is_empty() || cell.count != 1 {
        return None;
    }
    Some(with_label(s, cell.sum as u32))
}

/// The cells of the faces in the list, of which each face with one label more tells.
pub fn cells_of(alloc: Global, faces: &[Simplex]) -> Result<Cells, Memory>
    ensures { IfOk result (λ m. (s : List ℕ) → get same m s ≡ cell_at faces.now s) }
{
    let mut cells = blank_cells(alloc, faces)?;
    for face in faces {
        raise(&mut cells, face)?;
    }
    Ok(cells)
}

fn blank_cells(alloc: Global, faces: &[Simplex]) -> Result<Cells, Memory>
    ensures { IfOk result (λ m. (s : List ℕ) → get same m s ≡ (if list_any (same s) faces.now then Some blank else None)) }
{
    let mut cells = HashMap::new(alloc);
    for face in faces {
        cells.insert(*face, Cell::BLANK)?;
    }
    Ok(cells)
}

// The face is told of at each face with one label less.
fn raise(cells: &mut Cells, face: &Simplex) -> Result<(), Memory>
    ensures { OnOk result ((s : List ℕ) → get same cells.new s ≡ option_map (with_labels (extra s face.now)) (get same cells.old s)) }
{
    for label in face.labels() {
        raise_at(cells, &face.without(*label), *label)?;
    }
    Ok(())
}

fn raise_at(cells: &mut Cells, s: &Simplex, label: u32) -> Result<(), Memory>
    ensures { OnOk result ((t : List ℕ) → get same cells.new t ≡ (if same s.now t then option_map (more label) (get same cells.old s.now) else get same cells.old t)) }
{
    if let Some(cell) = cells.get_mut(s) {
        *cell = cell.more(label)?;
    }
    Ok(())
}

/// The face is told of no more at each face with one label less.
pub fn lower(cells: &mut Cells, face: &Simplex)
    ensures { (s : List ℕ) → get same cells.new s ≡ option_map (without_labels (extra s face.now)) (get same cells.old s) }
{
    for label in face.labels() {
        lower_at(cells, &face.without(*label), *label);
    }
}

fn lower_at(cells: &mut Cells, s: &Simplex, label: u32)
    ensures { (t : List ℕ) → get same cells.new t ≡ (if same s.now t then option_map (less label) (get same cells.old s.now) else get same cells.old t) }
{
    if let Some(cell) = cells.get_mut(s) {
        *cell = cell.less(label);
    }
}
