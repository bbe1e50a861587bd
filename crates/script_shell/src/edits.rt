// What an edit comes to, where no condition before those on the state after it refuses the edit.
ghost use Rattle.std.specs.Prelude.{◌≡◌, None, IfOk, OnOk, IfErr, IsTrue};
ghost use Rattle.simplex.specs.FirstFailing.{first_failing};
ghost use Rattle.reply_texts.specs.Replies.{ok_reply};
ghost use Rattle.script_shell.specs.Commands.{adding, collapsing, dropping, editing_tests, flipping};
ghost use Rattle.script_shell.specs.Edits.{editing, makes_anew};
ghost use Rattle.script_shell.specs.Stops.{StopsAt};

use crate::edited::Edited;
use crate::lists::{simplex_first, simplices_first};
use crate::parts::not_void;
use crate::reducing::reduced;
use crate::stop::Stop;
use collapse_moves::{add_facet, check_free, drop_facet};
use facet_set::Facets;
use flip_rules::{apply, check};
use reply_texts::ok_reply;
use script_text::{Condition, Edit};
use simplex::{Flip, Memory, Numbers};
use std::alloc::Global;

/// The complex that the edit makes of this one, and the reply.
pub fn next(alloc: Global, complex: &Facets, edit: &Edit) -> Result<Edited, Stop>
    requires { IsTrue (makes_anew edit.now) }
    ensures passed { OnOk result (first_failing (editing_tests (editing complex.now edit.now)) ≡ None) }
    ensures complex { IfOk result (λ next. next.complex ≡ (editing complex.now edit.now).complex) }
    ensures reply { IfOk result (λ next. next.reply ≡ (editing complex.now edit.now).reply) }
    ensures refused { IfErr result (λ stop. StopsAt stop (first_failing (editing_tests (editing complex.now edit.now)))) }
{
    match edit {
        Edit::Flip { a, b } => Ok(counted(alloc, flipped(alloc, complex, a, b)?)?),
        Edit::Add { face } => Ok(counted(alloc, added(alloc, complex, face)?)?),
        Edit::Drop { face } => Ok(counted(alloc, dropped(alloc, complex, face)?)?),
        Edit::Collapse { face } => Ok(counted(alloc, collapsed(alloc, complex, face)?)?),
        Edit::Reduce { budget, seed } => reduced(alloc, complex, *budget, *seed),
        Edit::Undo | Edit::Redo => unreachable!(),
    }
}

// The complex with the reply that counts its facets.
fn counted(alloc: Global, complex: Facets) -> Result<Edited, Memory>
    ensures complex { IfOk result (λ next. next.complex ≡ complex) }
    ensures reply { IfOk result (λ next. next.reply ≡ ok_reply complex) }
{
    let reply = ok_reply(alloc, &complex)?;
    Ok(Edited { complex, reply })
}

// The complex after the flip.
fn flipped(alloc: Global, complex: &Facets, a: &Numbers, b: &Numbers) -> Result<Facets, Stop>
    ensures passed { OnOk result (first_failing (editing_tests (flipping complex.now a.now b.now)) ≡ None) }
    ensures complex { IfOk result (λ next. next ≡ (flipping complex.now a.now b.now).complex) }
    ensures refused { IfErr result (λ stop. StopsAt stop (first_failing (editing_tests (flipping complex.now a.now b.now)))) }
{
    let pair = simplices_first(alloc, a, b)?;
    not_void(complex)?;
    let flip = Flip {
        a: pair.0,
        b: pair.1,
    };
    check(complex, &flip)?;
    Ok(apply(alloc, complex, &flip)?)
}

// The complex with the simplex as one facet more.
fn added(alloc: Global, complex: &Facets, face: &Numbers) -> Result<Facets, Stop>
    ensures passed { OnOk result (first_failing (editing_tests (adding complex.now face.now)) ≡ None) }
    ensures complex { IfOk result (λ next. next ≡ (adding complex.now face.now).complex) }
    ensures refused { IfErr result (λ stop. StopsAt stop (first_failing (editing_tests (adding complex.now face.now)))) }
{
    let s = simplex_first(alloc, face)?;
    if complex.has_face(&s) {
        return Err(Stop::Refused(Condition::IsFace));
    }
    Ok(add_facet(alloc, complex, &s)?)
}

// The complex without the facet, whose other faces stay.
fn dropped(alloc: Global, complex: &Facets, face: &Numbers) -> Result<Facets, Stop>
    ensures passed { OnOk result (first_failing (editing_tests (dropping complex.now face.now)) ≡ None) }
    ensures complex { IfOk result (λ next. next ≡ (dropping complex.now face.now).complex) }
    ensures refused { IfErr result (λ stop. StopsAt stop (first_failing (editing_tests (dropping complex.now face.now)))) }
{
    let s = simplex_first(alloc, face)?;
    if !complex.is_facet(&s) {
        return Err(Stop::Refused(Condition::NotFacet));
    }
    Ok(drop_facet(alloc, complex, &s)?)
}

// The complex after the elementary collapse.
fn collapsed(alloc: Global, complex: &Facets, face: &Numbers) -> Result<Facets, Stop>
    ensures passed { OnOk result (first_failing (editing_tests (collapsing complex.now face.now)) ≡ None) }
    ensures complex { IfOk result (λ next. next ≡ (collapsing complex.now face.now).complex) }
    ensures refused { IfErr result (λ stop. StopsAt stop (first_failing (editing_tests (collapsing complex.now face.now)))) }
{
    let s = simplex_first(alloc, face)?;
    check_free(complex, &s)?;
    Ok(collapse_moves::collapse(alloc, complex, &s)?)
}
