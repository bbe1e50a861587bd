ghost use Rattle.std.specs.Prelude.{◌≡◌, ◌↔◌, IsTrue, IsOk};
ghost use Rattle.simplex.specs.FirstFailing.{first_failing, unless_fault};
ghost use Rattle.facet_set.specs.Flips.{allowed};
ghost use Rattle.flip_rules.specs.Tests.{flip_tests};

use crate::FlipFault;
use crate::parts::{has_flip_size, is_star};
use facet_set::Facets;
use simplex::Flip;

// The first of the five parts that fails.
fn first_fault(c: &Facets, flip: &Flip) -> Option<FlipFault>
    ensures { result ≡ first_failing (flip_tests c.now flip.now) }
{
    let facets = c.as_slice();
    if !c.is_pure() {
        return Some(FlipFault::NotPure);
    }
    if !has_flip_size(facets, flip) {
        return Some(FlipFault::Size);
    }
    if !flip.a.disjoint(&flip.b) {
        return Some(FlipFault::Overlap);
    }
    if !is_star(facets, flip) {
        return Some(FlipFault::Star);
    }
    if c.has_face(&flip.b) {
        return Some(FlipFault::Present);
    }
    None
}

/// Whether the flip is allowed on the complex, and otherwise the first of the five parts that fails (Pachner;
/// Bjorner and Lutz). It takes no memory.
pub fn check(c: &Facets, flip: &Flip) -> Result<(), FlipFault>
    ensures exact { result ≡ unless_fault (first_failing (flip_tests c.now flip.now)) tt }
    ensures allowed { IsOk result ↔ IsTrue (allowed c.now flip.now.a flip.now.b) }
{
    match first_fault(c, flip) {
        None => Ok(()),
        Some(fault) => Err(fault),
    }
}
