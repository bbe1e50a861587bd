use simplex::{Memory, Simplex};
use std::alloc::Global;
use std::cmp::Reverse;
use std::collections::BinaryHeap;
use std::marker::Model;

/// Faces that wait: those with the most labels are taken first, and of these the least. A face may wait more than once.
#[derive(Drop)]
pub struct FaceQueue {
    heap: BinaryHeap<(usize, Reverse<Simplex>)>,
}

impl Model for FaceQueue {
    ghost use Rattle.std.specs.Prelude.{List, ℕ};
    ghost use Rattle.std.specs.BinaryHeap.{heap_items};
    ghost use Rattle.morse_lists.specs.Queues.{faces_in, IsRanked};

    ghost Value = { List (List ℕ) };

    ghost view = { λ q. faces_in (heap_items q.heap) };

    ghost invariant = { λ q. IsRanked (heap_items q.heap) };
}

impl FaceQueue {
    ghost use Rattle.std.specs.Prelude.{◌≡◌, ◌+◌, ◌↔◌, ◌⊎◌, ℕ, List, [], length, IfSome, IfNone, OnOk};
    ghost use Rattle.simplex.specs.Members.{In};
    ghost use Rattle.morse_lists.specs.Queues.{IsTakenFirst};

    /// No face.
    pub fn new(alloc: Global) -> FaceQueue
        ensures { result ≡ [] }
    {
        FaceQueue {
            heap: BinaryHeap::new(alloc),
        }
    }

    /// Puts a face in.
    pub fn push(&mut self, s: &Simplex) -> Result<(), Memory>
        ensures { OnOk result ((t : List ℕ) → In t self.new ↔ ((t ≡ s.now) ⊎ In t self.old)) }
    {
        self.heap.push((s.len(), Reverse(*s)))?;
        Ok(())
    }

    /// Takes the face out that is first. None exactly where there is none.
    pub fn pop(&mut self) -> Option<Simplex>
        ensures first { IfSome result (λ s. IsTakenFirst s self.old) }
        ensures members { IfSome result (λ s. (t : List ℕ) → In t self.old ↔ ((t ≡ s) ⊎ In t self.new)) }
        ensures len { IfSome result (λ s. length self.new + 1 ≡ length self.old) }
        ensures none { IfNone result (self.old ≡ []) }
    {
        let (_, Reverse(s)) = self.heap.pop()?;
        Some(s)
    }
}
