ghost use Rattle.std.specs.Prelude.{◌≡◌, map, pos, Some, None, OnOk, IfOk, IfErr};
ghost use Rattle.facet_set.specs.Numbers.{f_vector};
ghost use Rattle.face_vectors.specs.Row.{entries};
ghost use Rattle.face_vectors.specs.Vectors.{h_vector_of};
ghost use Rattle.shellings.specs.Shellings.{shell_fault, counts};

use crate::ShellFault;
use crate::restrictions::good_restriction;
use crate::rows::{raise, zeros};
use face_vectors::Row;
use facet_set::Facets;
use simplex::Simplex;

/// The numbers of restrictions with 0, 1, .. labels of a shelling of the complex, which are its h-vector (textbooks), or why
/// the order is no shelling. It takes no memory, and compares each place with those before it.
pub fn check_shelling(c: &Facets, order: &[Simplex]) -> Result<Row, ShellFault>
    ensures passed { OnOk result (shell_fault c.now order.now ≡ None) }
    ensures counts { IfOk result (λ row. entries row ≡ map pos (counts c.now order.now)) }
    ensures h_vector { IfOk result (λ row. entries row ≡ h_vector_of (f_vector c.now)) }
    ensures faults { IfErr result (λ fault. shell_fault c.now order.now ≡ Some fault) }
{
    if !c.is_pure() {
        return Err(ShellFault::NotPure);
    }
    let facets = c.as_slice();
    let mut counts = zeros(c.size() + 1);
    for (i, f) in order.iter().enumerate() {
        match good_restriction(c, &order[..i], f) {
            Some(restriction) => raise(&mut counts, restriction.len()),
            None => return Err(ShellFault::Bad { at: i + 1 }),
        }
    }
    if order.len() != facets.len() {
        return Err(ShellFault::Bad {
            at: order.len() + 1,
        });
    }
    Ok(counts)
}
