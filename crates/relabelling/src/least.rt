// The least bijection.
ghost use Rattle.std.specs.Prelude.{◌≡◌, true, IfOk, IsTrue};
ghost use Rattle.facet_set.specs.Connection.{is_closed, is_strong};
ghost use Rattle.relabelling.specs.Bijections.{first_map};

use crate::colours::{Colours, refine};
use crate::leading::led;
use crate::search::{Sought, pairs, search};
use facet_set::Facets;
use local_parts::PartFault;
use simplex::{Memory, Pairs};
use std::alloc::Global;

/// Among the bijections of vertices that carry c to d, the one whose list of images, in the order of the vertices of c, is
/// least. None exactly where no bijection carries c to d. The choice is own.
pub fn first_map(alloc: Global, c: &Facets, d: &Facets) -> Result<Option<Pairs>, Memory>
    ensures { IfOk result (λ o. o ≡ first_map c.now d.now) }
{
    let fits = is_closed_and_strong(alloc, c)?;
    if fits {
        match led(alloc, c, d)? {
            Some(map) => return Ok(map),
            None => return searched(alloc, c, d),
        }
    }
    searched(alloc, c, d)
}

fn is_closed_and_strong(alloc: Global, c: &Facets) -> Result<bool, Memory>
    ensures closed { IfOk result (λ b. b ≡ true → IsTrue (is_closed c.now)) }
    ensures strong { IfOk result (λ b. b ≡ true → IsTrue (is_strong c.now)) }
{
    let closed = is_closed(alloc, c)?;
    if !closed {
        return Ok(false);
    }
    let strong = is_strong(alloc, c)?;
    Ok(strong)
}

// False too where the complex is not pure.
fn is_closed(alloc: Global, c: &Facets) -> Result<bool, Memory>
    ensures { IfOk result (λ b. b ≡ true → IsTrue (is_closed c.now)) }
{
    match local_parts::is_closed(alloc, c) {
        Ok(closed) => Ok(closed),
        Err(PartFault::Memory) => Err(Memory),
        Err(_) => Ok(false),
    }
}

// False too where the complex is not pure.
fn is_strong(alloc: Global, c: &Facets) -> Result<bool, Memory>
    ensures { IfOk result (λ b. b ≡ true → IsTrue (is_strong c.now)) }
{
    match local_parts::is_strong(alloc, c) {
        Ok(strong) => Ok(strong),
        Err(PartFault::Memory) => Err(Memory),
        Err(_) => Ok(false),
    }
}

// The least bijection by a search in the order of the vertices.
fn searched(alloc: Global, c: &Facets, d: &Facets) -> Result<Option<Pairs>, Memory>
    ensures { IfOk result (λ o. o ≡ first_map c.now d.now) }
{
    let mut colours = Colours::new(alloc);
    let fits = refine(alloc, c, d, &mut colours, c.as_slice().len())?;
    if !fits {
        return Ok(None);
    }
    let vertices = c.vertices()?;
    let targets = d.vertices()?;
    let sought = Sought {
        c,
        d,
        vertices: vertices.as_slice(),
        targets: targets.as_slice(),
    };
    let mut images = Vec::new(alloc);
    if search(alloc, &sought, &colours, &mut images)? {
        let list = pairs(alloc, vertices.as_slice(), &images)?;
        return Ok(Some(Pairs::from_vec(list)));
    }
    Ok(None)
}
