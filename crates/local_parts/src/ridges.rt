// Boundaries and closedness.
ghost use Rattle.std.specs.Prelude.{◌≡◌, ◌↔◌, ◌⊎◌, false, Err, IfOk, IfErr, IsTrue};
ghost use Rattle.facet_set.specs.Numbers.{is_pure};
ghost use Rattle.facet_set.specs.Parts.{boundary};
ghost use Rattle.facet_set.specs.Connection.{is_closed};
ghost use Rattle.local_parts.specs.declared.part_fault.PartFault.TheVariants as fault;

use crate::PartFault;
use crate::ridge_counts::{all_ridges, are_twice, count_copies, counted_once};
use facet_set::Facets;
use simplex::Memory;
use std::alloc::Global;

/// The complex of the ridges that lie in exactly one facet.
pub fn boundary(alloc: Global, c: &Facets) -> Result<Facets, PartFault>
    ensures value { IfOk result (λ d. d ≡ boundary c.now) }
    ensures not_pure { (result ≡ Err fault.NotPure) ↔ (is_pure c.now ≡ false) }
    ensures faults { IfErr result (λ e. (e ≡ fault.NotPure) ⊎ (e ≡ fault.Memory)) }
{
    if !c.is_pure() {
        return Err(PartFault::NotPure);
    }
    Ok(boundary_of(alloc, c)?)
}

fn boundary_of(alloc: Global, c: &Facets) -> Result<Facets, Memory>
    requires { IsTrue (is_pure c.now) }
    ensures { IfOk result (λ d. d ≡ boundary c.now) }
{
    let ridges = all_ridges(alloc, c.as_slice())?;
    let counts = count_copies(alloc, &ridges)?;
    let once = counted_once(alloc, &ridges, &counts)?;
    Facets::generated(alloc, &once)
}

/// Whether each ridge lies in exactly two facets.
pub fn is_closed(alloc: Global, c: &Facets) -> Result<bool, PartFault>
    ensures value { IfOk result (λ b. b ≡ is_closed c.now) }
    ensures not_pure { (result ≡ Err fault.NotPure) ↔ (is_pure c.now ≡ false) }
    ensures faults { IfErr result (λ e. (e ≡ fault.NotPure) ⊎ (e ≡ fault.Memory)) }
{
    if !c.is_pure() {
        return Err(PartFault::NotPure);
    }
    Ok(closed_of(alloc, c)?)
}

fn closed_of(alloc: Global, c: &Facets) -> Result<bool, Memory>
    requires { IsTrue (is_pure c.now) }
    ensures { IfOk result (λ b. b ≡ is_closed c.now) }
{
    let ridges = all_ridges(alloc, c.as_slice())?;
    let counts = count_copies(alloc, &ridges)?;
    Ok(are_twice(&ridges, &counts))
}
