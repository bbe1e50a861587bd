ghost use Rattle.std.specs.Prelude.{◌≡◌, false, [], ◌∷◌, ◌++◌, map, None, IfOk, OnOk, IfErr, OnErr, IsTrue};
ghost use Rattle.simplex.specs.FirstFailing.{first_failing};
ghost use Rattle.reply_texts.specs.Replies.{ok_reply};
ghost use Rattle.shell_names.specs.State.{assign, holds, present};
ghost use Rattle.script_shell.specs.Commands.{making, making_tests, assignment, name_test, weight_test, room_test};
ghost use Rattle.script_shell.specs.Limits.{IsWithinStandard};
ghost use Rattle.script_shell.specs.Rooms.{fits_test, making_own, room_beside, takes_room};
ghost use Rattle.script_shell.specs.Stops.{StopsAt};

use crate::Limits;
use crate::constructing::{constructed, handle, sum};
use crate::label_maps::relabel;
use crate::lists::generated;
use crate::parts::{boundary, deletion, link, star};
use crate::stop::Stop;
use constructions::{bdcross, bdsimplex, cone, cyclic, join, stacked, suspension};
use facet_set::Facets;
use local_parts::skeleton;
use reply_texts::ok_reply;
use script_text::{Condition, Maker, Name};
use shell_names::Names;
use simplex::Text;
use std::alloc::Global;

/// The assignment `N := maker`: its reply where no condition refuses it.
pub fn assign(
    alloc: Global,
    limits: Limits,
    names: &mut Names,
    name: &Name,
    maker: &Maker,
) -> Result<Text, Stop>
    requires { IsWithinStandard limits }
    ensures passed { OnOk result (first_failing (assignment limits names.old name.now (making names.old maker.now)).tests ≡ None) }
    ensures text { IfOk result (λ text. text ≡ (assignment limits names.old name.now (making names.old maker.now)).reply) }
    ensures state { OnOk result (names.new ≡ (assignment limits names.old name.now (making names.old maker.now)).after) }
    ensures refused { IfErr result (λ stop. StopsAt stop (first_failing (assignment limits names.old name.now (making names.old maker.now)).tests)) }
    ensures err { OnErr result (names.new ≡ names.old) }
{
    let facets = made(alloc, limits, names, name, maker)?;
    put(alloc, limits, names, name, facets)
}

// What the maker makes, or the first condition that fails. One that the making itself finds may be that on the state
// after the assignment.
fn made(
    alloc: Global,
    limits: Limits,
    names: &Names,
    name: &Name,
    maker: &Maker,
) -> Result<Facets, Stop>
    ensures passed { OnOk result (first_failing (making_tests limits names.now name.now (making names.now maker.now)) ≡ None) }
    ensures complex { IfOk result (λ facets. facets ≡ (making names.now maker.now).complex) }
    ensures refused { IfErr result (λ stop. StopsAt stop (first_failing (assignment limits names.now name.now (making names.now maker.now)).tests)) }
{
    names_held(names, maker)?;
    room(limits, names, name)?;
    make(alloc, limits, names, name, maker)
}

// Whether the names that the maker speaks of are held.
fn names_held(names: &Names, maker: &Maker) -> Result<(), Stop>
    ensures passed { OnOk result (first_failing (map (name_test names.now) (making names.now maker.now).names) ≡ None) }
    ensures refused { IfErr result (λ stop. StopsAt stop (first_failing (map (name_test names.now) (making names.now maker.now).names))) }
{
    match maker {
        Maker::Facets { .. }
        | Maker::BdSimplex { .. }
        | Maker::BdCross { .. }
        | Maker::Cyclic { .. }
        | Maker::Stacked { .. } => Ok(()),
        Maker::Join { left, right } | Maker::Sum { left, right, .. } => {
            both_held(names, left, right)
        }
        Maker::Copy { of }
        | Maker::Link { of, .. }
        | Maker::Star { of, .. }
        | Maker::Deletion { of, .. }
        | Maker::Boundary { of }
        | Maker::Skeleton { of, .. }
        | Maker::Cone { of }
        | Maker::Suspension { of }
        | Maker::Handle { of, .. }
        | Maker::Relabel { of, .. } => name_held(names, of),
    }
}

fn both_held(names: &Names, x: &Name, y: &Name) -> Result<(), Stop>
    ensures passed { OnOk result (first_failing (name_test names.now x.now ∷ name_test names.now y.now ∷ []) ≡ None) }
    ensures refused { IfErr result (λ stop. StopsAt stop (first_failing (name_test names.now x.now ∷ name_test names.now y.now ∷ []))) }
{
    if names.holds(x) && names.holds(y) {
        Ok(())
    } else {
        Err(Stop::Refused(Condition::NoName))
    }
}

fn name_held(names: &Names, name: &Name) -> Result<(), Stop>
    ensures passed { OnOk result (first_failing (name_test names.now name.now ∷ []) ≡ None) }
    ensures refused { IfErr result (λ stop. StopsAt stop (first_failing (name_test names.now name.now ∷ []))) }
{
    if names.holds(name) {
        Ok(())
    } else {
        Err(Stop::Refused(Condition::NoName))
    }
}

// What the maker makes of names that are held, or the first condition that fails of those behind that on the room for the
// name.
fn make(
    alloc: Global,
    limits: Limits,
    names: &Names,
    name: &Name,
    maker: &Maker,
) -> Result<Facets, Stop>
    requires { first_failing (map (name_test names.now) (making names.now maker.now).names) ≡ None }
    ensures passed { OnOk result (first_failing (making_own (making names.now maker.now)) ≡ None) }
    ensures complex { IfOk result (λ facets. facets ≡ (making names.now maker.now).complex) }
    ensures refused { IfErr result (λ stop. StopsAt stop (first_failing (making_own (making names.now maker.now) ++ weight_test limits (assign name.now (making names.now maker.now).complex names.now) ∷ []))) }
{
    if takes_room(maker) {
        make_within(alloc, room_beside(limits, names, name), names, maker)
    } else {
        make_freely(alloc, names, maker)
    }
}

fn takes_room(maker: &Maker) -> bool
    ensures { result ≡ takes_room maker.now }
{
    matches!(
        maker,
        Maker::Cyclic { .. } | Maker::Stacked { .. } | Maker::Join { .. }
    )
}

// The limit of the weights less the weights of the other names, or 0 where these are above it.
fn room_beside(limits: Limits, names: &Names, name: &Name) -> u64
    ensures { result ≡ room_beside limits names.now name.now }
{
    limits.weight.saturating_sub(names.weight_without(name))
}

// What a construction makes that is told its room. It stops where the weight would be above it.
fn make_within(alloc: Global, room: u64, names: &Names, maker: &Maker) -> Result<Facets, Stop>
    requires held { first_failing (map (name_test names.now) (making names.now maker.now).names) ≡ None }
    requires room { IsTrue (takes_room maker.now) }
    ensures passed { OnOk result (first_failing (making_own (making names.now maker.now)) ≡ None) }
    ensures complex { IfOk result (λ facets. facets ≡ (making names.now maker.now).complex) }
    ensures refused { IfErr result (λ stop. StopsAt stop (first_failing (making_own (making names.now maker.now) ++ fits_test room (making names.now maker.now).complex ∷ []))) }
{
    match maker {
        Maker::Cyclic { k, n } => constructed(cyclic(alloc, *k, *n, room)),
        Maker::Stacked { d, n, seed } => constructed(stacked(alloc, *d, *n, *seed, room)),
        Maker::Join { left, right } => {
            let x = present(names, left);
            let y = present(names, right);
            constructed(join(alloc, x, y, room))
        }
        Maker::Facets { .. }
        | Maker::Copy { .. }
        | Maker::Link { .. }
        | Maker::Star { .. }
        | Maker::Deletion { .. }
        | Maker::Boundary { .. }
        | Maker::Skeleton { .. }
        | Maker::BdSimplex { .. }
        | Maker::BdCross { .. }
        | Maker::Cone { .. }
        | Maker::Suspension { .. }
        | Maker::Sum { .. }
        | Maker::Handle { .. }
        | Maker::Relabel { .. } => unreachable!(),
    }
}

// What another maker makes.
fn make_freely(alloc: Global, names: &Names, maker: &Maker) -> Result<Facets, Stop>
    requires held { first_failing (map (name_test names.now) (making names.now maker.now).names) ≡ None }
    requires room { takes_room maker.now ≡ false }
    ensures passed { OnOk result (first_failing (making_own (making names.now maker.now)) ≡ None) }
    ensures complex { IfOk result (λ facets. facets ≡ (making names.now maker.now).complex) }
    ensures refused { IfErr result (λ stop. StopsAt stop (first_failing (making_own (making names.now maker.now)))) }
{
    match maker {
        Maker::Facets { lists } => generated(alloc, lists),
        Maker::Copy { of } => Ok(present(names, of).copy()?),
        Maker::Link { of, face } => link(alloc, present(names, of), face),
        Maker::Star { of, face } => star(alloc, present(names, of), face),
        Maker::Deletion { of, face } => deletion(alloc, present(names, of), face),
        Maker::Boundary { of } => boundary(alloc, present(names, of)),
        Maker::Skeleton { of, k } => Ok(skeleton(alloc, present(names, of), *k)?),
        Maker::BdSimplex { d } => constructed(bdsimplex(alloc, *d)),
        Maker::BdCross { d } => constructed(bdcross(alloc, *d)),
        Maker::Cone { of } => constructed(cone(alloc, present(names, of))),
        Maker::Suspension { of } => constructed(suspension(alloc, present(names, of))),
        Maker::Sum {
            left,
            left_facet,
            right,
            right_facet,
        } => {
            let x = present(names, left);
            let y = present(names, right);
            sum(alloc, x, left_facet, y, right_facet)
        }
        Maker::Handle { of, first, second } => handle(alloc, present(names, of), first, second),
        Maker::Relabel { of, pairs } => relabel(alloc, present(names, of), pairs),
        Maker::Cyclic { .. } | Maker::Stacked { .. } | Maker::Join { .. } => unreachable!(),
    }
}

// The present complex of a name that is held.
fn present<'a>(names: &'a Names, name: &Name) -> &'a Facets
    requires { IsTrue (holds names.now name.now) }
    ensures { result.now ≡ present names.now name.now }
{
    names.present(name).unwrap()
}

// Whether there is room for the name.
fn room(limits: Limits, names: &Names, name: &Name) -> Result<(), Stop>
    ensures passed { OnOk result (first_failing (room_test limits names.now name.now ∷ []) ≡ None) }
    ensures refused { IfErr result (λ stop. StopsAt stop (first_failing (room_test limits names.now name.now ∷ []))) }
{
    if names.holds(name) || (names.len() as u64) < limits.names {
        Ok(())
    } else {
        Err(Stop::Refused(Condition::NamesFull))
    }
}

// Gives the name the complex, where the weights stay within the limit.
fn put(
    alloc: Global,
    limits: Limits,
    names: &mut Names,
    name: &Name,
    facets: Facets,
) -> Result<Text, Stop>
    requires { IsWithinStandard limits }
    ensures passed { OnOk result (first_failing (weight_test limits (assign name.now facets names.old) ∷ []) ≡ None) }
    ensures text { IfOk result (λ text. text ≡ ok_reply facets) }
    ensures state { OnOk result (names.new ≡ assign name.now facets names.old) }
    ensures refused { IfErr result (λ stop. StopsAt stop (first_failing (weight_test limits (assign name.now facets names.old) ∷ []))) }
    ensures err { OnErr result (names.new ≡ names.old) }
{
    if names.weight_after(name, &facets) > limits.weight {
        return Err(Stop::Refused(Condition::SizeLimit));
    }
    let text = ok_reply(alloc, &facets)?;
    names.assign(name, facets)?;
    Ok(text)
}
