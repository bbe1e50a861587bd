ghost use Rattle.std.specs.Prelude.{◌≡◌, ◌⊎◌, ◌≤ℤ◌, ℕ, pos, Some, IfOk, IfErr, OnOk, IsTrue};
ghost use Rattle.facet_set.specs.Numbers.{f_vector};
ghost use Rattle.face_vectors.specs.Vectors.{alternating};
ghost use Rattle.betti_tables.specs.Ranks.{betti_number};
ghost use Rattle.morse_lists.specs.declared.morse_fault.MorseFault.TheVariants as fault;
ghost use Rattle.morse_lists.specs.Morse.{is_morse_list, critical_count, critical_counts, morse_fault};
ghost use Rattle.morse_lists.specs.Tally.{numbers};

use crate::face_table::FaceTable;
use crate::{MorseFault, MorseSteps, Tally};
use facet_set::Facets;
use std::alloc::Global;

/// The numbers of critical steps of each dimension, where the steps are a Morse list of the complex, or why they are none. It
/// takes time in proportion to the number of faces times its logarithm. Then b_k is at most c_k for each k, and the alternating
/// sum of the c_k is the Euler characteristic (Forman).
pub fn check_morse(alloc: Global, c: &Facets, list: &MorseSteps) -> Result<Tally, MorseFault>
    ensures passed { OnOk result (IsTrue (is_morse_list c.now list.now)) }
    ensures value { IfOk result (λ tally. numbers tally ≡ critical_counts c.now list.now) }
    ensures inequalities { OnOk result ((k : ℕ) → betti_number c.now k ≤ℤ pos (critical_count list.now k)) }
    ensures euler { OnOk result (alternating (critical_counts c.now list.now) ≡ alternating (f_vector c.now)) }
    ensures faults { IfErr result (λ e. (e ≡ fault.Memory) ⊎ (morse_fault c.now list.now ≡ Some e)) }
{
    let mut faces = FaceTable::of(alloc, c)?;
    for (i, step) in list.as_slice().iter().enumerate() {
        if !faces.is_possible(step) {
            return Err(MorseFault::Step { at: i + 1 });
        }
        faces.take(step);
    }
    if !faces.is_bare() {
        return Err(MorseFault::Rest);
    }
    Ok(Tally::of(list.as_slice(), c.size()))
}
