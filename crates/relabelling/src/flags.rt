// The orders of a facet's labels that the labels of another facet may go to.
ghost use Rattle.std.specs.Prelude.{◌≡◌, ◌≤◌, ◌<◌, ◌++◌, ◌∷◌, [], ℕ, List, ◌&&◌, ◌==◌, not, length, slice_index_or, IfOk, IfSome, OnOk, IsTrue};
ghost use Rattle.std.specs.List.{list_all, filter, flat_map};
ghost use Rattle.simplex.specs.Members.{In};
ghost use Rattle.simplex.specs.Simplex.{has, is_label};
ghost use Rattle.relabelling.specs.Colours.{colour};
ghost use Rattle.relabelling.specs.Flags.{AreOrders, Fits, longer, may_follow};

use crate::colours::{Colours, colour};
use simplex::{Labels, Memory, Simplex};
use std::alloc::{AllocError, Global};

// The greatest number of orders of the labels of one facet that are tried.
const MOST_ORDERS: usize = 120;

/// A facet, one that it may be carried to, and colours that are kept.
#[derive(Clone, Copy)]
pub struct Flag<'a> {
    pub start: &'a Simplex,
    pub facet: &'a Simplex,
    pub colours: &'a Colours,
}

impl Flag<'_> {
    /// The orders of labels of the facet that begin with this one and that keep the colours. None only where they are many.
    pub fn orders(&self, alloc: Global, first: u32) -> Result<Option<Vec<Labels>>, Memory>
        requires some { 0 < length self.now.start.now }
        requires label { IsTrue (is_label first) }
        requires facet { IsTrue (list_all is_label self.now.facet.now) }
        ensures orders { IfOk result (λ o. IfSome o (λ v. AreOrders (length self.now.start.now) v.items)) }
        ensures all { IfOk result (λ o. IfSome o (λ v. (g : List ℕ) → Fits (colour self.now.colours.now.of_c) (colour self.now.colours.now.of_d) self.now.start.now self.now.facet.now g → slice_index_or g 0 0 ≡ first → In g v.items)) }
    {
        let mut orders = Vec::new(alloc);
        orders.push(with_one_more(alloc, &[], first)?)?;
        for place in 1..self.start.len() {
            if orders.len() > MOST_ORDERS {
                return Ok(None);
            }
            orders = self.longer_orders(alloc, &orders, place)?;
        }
        Ok(Some(orders))
    }

    // The orders with one more label, in each way that keeps the colours.
    fn longer_orders(
        &self,
        alloc: Global,
        orders: &[Labels],
        place: usize,
    ) -> Result<Vec<Labels>, Memory>
        requires orders { AreOrders place orders.now }
        requires place { place < length self.now.start.now }
        ensures { IfOk result (λ v. v.items ≡ flat_map (longer (colour self.now.colours.now.of_c) (colour self.now.colours.now.of_d) self.now.start.now self.now.facet.now) orders.now) }
    {
        let mut next = Vec::new(alloc);
        for order in orders {
            self.add_longer(alloc, &mut next, order.as_slice())?;
        }
        Ok(next)
    }

    fn add_longer(&self, alloc: Global, next: &mut Vec<Labels>, order: &[u32]) -> Result<(), Memory>
        requires { length order.now < length self.now.start.now }
        ensures { OnOk result (next.new.items ≡ next.old.items ++ longer (colour self.now.colours.now.of_c) (colour self.now.colours.now.of_d) self.now.start.now self.now.facet.now order.now) }
    {
        let followers = self.followers(alloc, order)?;
        for label in &followers {
            next.push(with_one_more(alloc, order, *label)?)?;
        }
        Ok(())
    }

    // The labels of the facet that may stand next in the order.
    fn followers(&self, alloc: Global, order: &[u32]) -> Result<Vec<u32>, AllocError>
        requires { length order.now < length self.now.start.now }
        ensures { IfOk result (λ v. v.items ≡ filter (may_follow (colour self.now.colours.now.of_c) (colour self.now.colours.now.of_d) self.now.start.now order.now) self.now.facet.now) }
    {
        let own = colour(&self.colours.of_c, self.start.labels()[order.len()]);
        self.facet
            .labels()
            .iter()
            .copied()
            .filter(|label| self.is_next(order, own, *label))
            .collect(alloc)
    }

    // Whether the label is not in the order yet and has the colour.
    fn is_next(&self, order: &[u32], own: u64, label: u32) -> bool
        ensures { result ≡ (not (has order.now label) && (own == colour self.now.colours.now.of_d label)) }
    {
        !order.contains(&label) && own == colour(&self.colours.of_d, label)
    }
}

fn with_one_more(alloc: Global, order: &[u32], label: u32) -> Result<Labels, Memory>
    ensures { IfOk result (λ l. l ≡ order.now ++ label ∷ []) }
{
    let mut longer = Vec::from_slice(alloc, order)?;
    longer.push(label)?;
    Ok(Labels::from_vec(longer))
}
