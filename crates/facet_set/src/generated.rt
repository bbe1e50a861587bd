// The members of a list that lie properly in no other.
ghost use Rattle.std.specs.Prelude.{◌≡◌, ◌≤◌, ◌<◌, ◌==◌, ◌&&◌, ◌||◌, not, true, nat_eq, length, ℕ, List, IfOk, OnOk, IsTrue};
ghost use Rattle.std.specs.List.{list_all, filter};
ghost use Rattle.std.specs.HashSet.{contains};
ghost use Rattle.std.specs.Cmp.Lexicographic.{pointwise};
ghost use Rattle.simplex.specs.Members.{In};
ghost use Rattle.simplex.specs.Simplex.{is_simplex, subset_at};
ghost use Rattle.facet_set.specs.Complex.{simplices, is_maximal_in, is_proper_face};

use simplex::{Memory, Simplex};
use std::alloc::{AllocError, Global};
use std::collections::HashSet;

/// The set of the simplices, in increasing order.
pub fn in_order(alloc: Global, list: &[Simplex]) -> Result<Vec<Simplex>, Memory>
    ensures { IfOk result (λ v. v.items ≡ simplices list.now) }
{
    let mut members = Vec::from_slice(alloc, list)?;
    members.sort_unstable();
    members.dedup();
    Ok(members)
}

/// Those of the simplices that lie properly in no other. Where all have one length, these are all of them; otherwise the
/// shorter ones go into a set, and each longer one takes its subsets out of it.
pub fn uncovered(alloc: Global, members: &[Simplex]) -> Result<Vec<Simplex>, Memory>
    ensures value { IfOk result (λ v. v.items ≡ filter (is_maximal_in members.now) members.now) }
    ensures simplices { IsTrue (list_all is_simplex members.now) }
{
    let lengths = measure(members);
    if lengths.shortest == lengths.longest {
        return Ok(Vec::from_slice(alloc, members)?);
    }
    let mut free = shorter(alloc, members, lengths.longest)?;
    take_out(&mut free, members, lengths.shortest);
    Ok(kept(alloc, members, lengths.longest, &free)?)
}

#[derive(Clone, Copy)]
struct Lengths {
    shortest: usize,
    longest: usize,
}

// Bounds on the lengths, which are those of the shortest and the longest.
fn measure(members: &[Simplex]) -> Lengths
    ensures simplices { IsTrue (list_all is_simplex members.now) }
    ensures shortest { (s : List ℕ) → In s members.now → result.shortest ≤ length s }
    ensures longest { (s : List ℕ) → In s members.now → length s ≤ result.longest }
{
    let mut shortest = 12;
    let mut longest = 0;
    for s in members {
        shortest = s.len().min(shortest);
        longest = s.len().max(longest);
    }
    Lengths { shortest, longest }
}

// The simplices that are shorter than the longest.
fn shorter(alloc: Global, members: &[Simplex], longest: usize) -> Result<HashSet<Simplex>, Memory>
    ensures { IfOk result (λ set. (s : List ℕ) → In s members.now → length s < longest → contains (pointwise nat_eq) set s ≡ true) }
{
    let mut shorter = HashSet::new(alloc);
    for s in members {
        add_shorter(&mut shorter, *s, longest)?;
    }
    Ok(shorter)
}

fn add_shorter(set: &mut HashSet<Simplex>, s: Simplex, longest: usize) -> Result<(), Memory>
    ensures more { OnOk result (((t : List ℕ) → contains (pointwise nat_eq) set.old t ≡ true → contains (pointwise nat_eq) set.new t ≡ true)) }
    ensures here { OnOk result (length s < longest → contains (pointwise nat_eq) set.new s ≡ true) }
{
    if s.len() < longest {
        set.insert(s)?;
    }
    Ok(())
}

// Takes out what lies properly in one of the simplices, and is not shorter than all of them.
fn take_out(free: &mut HashSet<Simplex>, members: &[Simplex], shortest: usize)
    ensures { (t : List ℕ) → IsTrue (is_simplex t) → shortest ≤ length t
        → contains (pointwise nat_eq) free.new t ≡ (contains (pointwise nat_eq) free.old t && is_maximal_in members.now t) }
{
    for s in members {
        take_out_faces(free, s, shortest);
    }
}

fn take_out_faces(free: &mut HashSet<Simplex>, s: &Simplex, shortest: usize)
    ensures { (t : List ℕ) → IsTrue (is_simplex t) → shortest ≤ length t
        → contains (pointwise nat_eq) free.new t ≡ (contains (pointwise nat_eq) free.old t && not (is_proper_face t s.now)) }
{
    if s.len() <= shortest {
        return;
    }
    for mask in 0..(1u32 << s.len()) - 1 {
        take_out_face(free, s, mask, shortest);
    }
}

fn take_out_face(free: &mut HashSet<Simplex>, s: &Simplex, mask: u32, shortest: usize)
    ensures { (t : List ℕ) → shortest ≤ length t
        → contains (pointwise nat_eq) free.new t ≡ (contains (pointwise nat_eq) free.old t && not (pointwise nat_eq t (subset_at s.now mask))) }
{
    let face = s.subset(mask);
    if face.len() >= shortest {
        free.remove(&face);
    }
}

fn kept(
    alloc: Global,
    members: &[Simplex],
    longest: usize,
    free: &HashSet<Simplex>,
) -> Result<Vec<Simplex>, AllocError>
    ensures { IfOk result (λ v. v.items ≡ filter (λ s. (length s == longest) || contains (pointwise nat_eq) free.now s) members.now) }
{
    members
        .iter()
        .copied()
        .filter(|s| s.len() == longest || free.contains(s))
        .collect(alloc)
}
