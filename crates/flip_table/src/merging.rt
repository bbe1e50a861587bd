ghost use Rattle.std.specs.Prelude.{◌≡◌, IfOk};
ghost use Rattle.flip_table.specs.Following.{merged};

use flip_rules::{Candidate, Candidates};
use simplex::Memory;
use std::alloc::Global;

/// Two lists in order of A as one.
pub fn merged(
    alloc: Global,
    first: &[Candidate],
    second: &[Candidate],
) -> Result<Candidates, Memory>
    ensures { IfOk result (λ l. l ≡ merged first.now second.now) }
{
    let mut list = Candidates::new(alloc);
    let (mut i, mut j) = (0, 0);
    while i < first.len() && j < second.len() {
        if second[j].flip.a < first[i].flip.a {
            list.push(second[j])?;
            j += 1;
        } else {
            list.push(first[i])?;
            i += 1;
        }
    }
    list.extend(&first[i..])?;
    list.extend(&second[j..])?;
    Ok(list)
}
