// The limits of a walk.
ghost use Rattle.std.specs.Prelude.{◌≡◌, ◌*◌, ◌+◌, ◌^◌, ◌<◌, length, nat_le, IfOk};
ghost use Rattle.simplex.specs.Simplex.{label_limit};
ghost use Rattle.facet_set.specs.Complex.{verts};
ghost use Rattle.facet_set.specs.Numbers.{size, weight_limit};
ghost use Rattle.annealer.specs.Budget.{is_in_budget, most_facets};

use facet_set::{Facets, WEIGHT_LIMIT};
use simplex::{LABEL_LIMIT, Memory};

/// Whether a walk of so many flips keeps within its limits: with d the dimension, (facets + d budget) 2^(d+1) is at most
/// 8,388,608, and vertices + budget at most 1,000,000. The limits are own. It takes memory to count the vertices.
pub fn is_in_budget(c: &Facets, budget: u64) -> Result<bool, Memory>
    ensures { IfOk result (λ b. b ≡ is_in_budget c.now budget) }
{
    Ok(has_room(c, budget) && has_labels(c, budget)?)
}

// Whether no complex on the walk can be too heavy.
fn has_room(c: &Facets, budget: u64) -> bool
    ensures { result ≡ nat_le (most_facets c.now budget * 2 ^ size c.now) weight_limit }
{
    most_facets(c, budget) * weight_of_one(c) as u128 <= WEIGHT_LIMIT as u128
}

// The most facets of a complex on the walk.
fn most_facets(c: &Facets, budget: u64) -> u128
    ensures value { result ≡ most_facets c.now budget }
    ensures bound { result < 2 ^ 68 }
{
    c.as_slice().len() as u128 + c.size().saturating_sub(1) as u128 * budget as u128
}

// The weight of a complex of one facet.
fn weight_of_one(c: &Facets) -> u16
    ensures { result ≡ 2 ^ size c.now }
{
    1 << c.size()
}

// Whether there are labels for the vertices of each complex on the walk.
fn has_labels(c: &Facets, budget: u64) -> Result<bool, Memory>
    ensures { IfOk result (λ b. b ≡ nat_le (length (verts c.now) + budget) label_limit) }
{
    let vertices = c.vertices()?.len();
    Ok(vertices as u128 + budget as u128 <= LABEL_LIMIT as u128)
}
