// Lists of flips, made one after another.
ghost use Rattle.std.specs.Prelude.{◌≡◌, ◌+◌, ◌⊎◌, false, IfOk, OnOk, IfErr, IsTrue};
ghost use Rattle.facet_set.specs.Flips.{goes, after};
ghost use Rattle.flip_certificate.specs.Count.{stopped};
ghost use Rattle.flip_certificate.specs.Valid.{first_stuck, is_pure_from};
ghost use Rattle.cert_replay.specs.declared.replay_fault.ReplayFault.TheVariants as fault;

use crate::ReplayFault;
use crate::table::Table;
use facet_set::Facets;
use simplex::Flip;
use std::alloc::Global;

/// The complex to which the flips lead. `Flip` names the first that is not allowed where it stands, by its number after those
/// before.
pub fn moved(
    alloc: Global,
    start: &Facets,
    flips: &[Flip],
    before: u64,
) -> Result<Facets, ReplayFault>
    ensures goes { OnOk result (IsTrue (goes start.now flips.now)) }
    ensures value { IfOk result (λ d. d ≡ after start.now flips.now) }
    ensures faults { IfErr result (λ e. (e ≡ fault.Memory)
        ⊎ ((goes start.now flips.now ≡ false) × (e ≡ fault.Flip (first_stuck before start.now flips.now)))) }
{
    if flips.is_empty() {
        return Ok(start.copy()?);
    }
    if !is_pure_from(1, start) {
        return Err(ReplayFault::Flip {
            k: number(before, 0),
        });
    }
    let mut table = Table::of(alloc, start)?;
    for (i, flip) in flips.iter().enumerate() {
        if !table.allows(alloc, flip)? {
            return Err(ReplayFault::Flip {
                k: number(before, i),
            });
        }
        table = table.flipped(alloc, flip)?;
    }
    Ok(table.facets(alloc)?)
}

// The number of the flip at the place after so many, or the last u64 where that is less.
fn number(before: u64, place: usize) -> u64
    ensures { result ≡ stopped (before + place + 1) }
{
    before.saturating_add(place as u64).saturating_add(1)
}

/// Whether the complex is pure, of at least so many labels a facet.
pub fn is_pure_from(least: usize, c: &Facets) -> bool
    ensures { result ≡ is_pure_from least c.now }
{
    c.is_pure() && least <= c.size()
}
