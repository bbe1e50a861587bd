ghost use Rattle.std.specs.Prelude.{◌≡◌, ◌↔◌, ◌⊎◌, false, Err, IfOk, IfErr, IsTrue};
ghost use Rattle.facet_set.specs.Numbers.{is_pure};
ghost use Rattle.shellings.specs.Shellings.{is_shelling};
ghost use Rattle.shellings.specs.Greedy.{greedy};
ghost use Rattle.shellings.specs.declared.greedy_fault.GreedyFault.TheVariants as fault;

use crate::GreedyFault;
use crate::candidates::{all_waiting, next_good, place};
use crate::placement::Placement;
use facet_set::Facets;
use simplex::{Memory, Simplices};
use std::alloc::Global;

/// The greedy order of the facets, and whether it is a shelling.
#[derive(Debug, Drop)]
pub struct Greedy {
    pub order: Simplices,
    pub whole: bool,
}

/// The order that begins with the least facet and goes on, while there is one, with the least facet for which the next
/// place is good. The order is own. An order that is no shelling says nothing of other orders.
pub fn greedy_shelling(alloc: Global, c: &Facets) -> Result<Greedy, GreedyFault>
    ensures value { IfOk result (λ g. g.order ≡ greedy c.now) }
    ensures whole { IfOk result (λ g. g.whole ≡ is_shelling c.now g.order) }
    ensures not_pure { (result ≡ Err fault.NotPure) ↔ (is_pure c.now ≡ false) }
    ensures faults { IfErr result (λ e. (e ≡ fault.NotPure) ⊎ (e ≡ fault.Memory)) }
{
    if !c.is_pure() {
        return Err(GreedyFault::NotPure);
    }
    Ok(greedy_of(alloc, c)?)
}

fn greedy_of(alloc: Global, c: &Facets) -> Result<Greedy, Memory>
    requires { IsTrue (is_pure c.now) }
    ensures value { IfOk result (λ g. g.order ≡ greedy c.now) }
    ensures whole { IfOk result (λ g. g.whole ≡ is_shelling c.now g.order) }
{
    let facets = c.as_slice();
    let mut placement = Placement::of(alloc, c)?;
    let mut candidates = all_waiting(alloc, facets)?;
    for _ in 0..facets.len() {
        match next_good(facets, &mut placement, &mut candidates) {
            Some(k) => place(facets, &mut placement, &mut candidates, k)?,
            None => break,
        }
    }
    let order = placement.order;
    let whole = order.len() == facets.len();
    Ok(Greedy { order, whole })
}
