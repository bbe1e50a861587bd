ghost use Rattle.std.specs.Prelude.{◌≡◌, [], ◌∷◌, None, IfOk, OnOk, IfErr, OnErr, IsTrue};
ghost use Rattle.simplex.specs.FirstFailing.{first_failing};
ghost use Rattle.shell_names.specs.State.{present, holds, undone, redone};
ghost use Rattle.script_shell.specs.Commands.{change, changing, undo, redo, weight_test, journal_test, after_edit};
ghost use Rattle.script_shell.specs.Edits.{editing, makes_anew};
ghost use Rattle.script_shell.specs.Limits.{IsWithinStandard};
ghost use Rattle.script_shell.specs.Stops.{StopsAt};

use crate::Limits;
use crate::edited::Edited;
use crate::edits::next;
use crate::stop::Stop;
use reply_texts::ok_reply;
use script_text::{Condition, Edit, Name};
use shell_names::Names;
use simplex::Text;
use std::alloc::Global;

/// A change of the complex of the name: its reply where no condition refuses it.
pub fn change(
    alloc: Global,
    limits: Limits,
    names: &mut Names,
    name: &Name,
    edit: &Edit,
) -> Result<Text, Stop>
    requires { IsWithinStandard limits }
    ensures passed { OnOk result (first_failing (changing limits names.old name.now edit.now).tests ≡ None) }
    ensures text { IfOk result (λ text. text ≡ (changing limits names.old name.now edit.now).reply) }
    ensures state { OnOk result (names.new ≡ (changing limits names.old name.now edit.now).after) }
    ensures refused { IfErr result (λ stop. StopsAt stop (first_failing (changing limits names.old name.now edit.now).tests)) }
    ensures err { OnErr result (names.new ≡ names.old) }
{
    match edit {
        Edit::Undo => undo(alloc, limits, names, name),
        Edit::Redo => redo(alloc, limits, names, name),
        Edit::Flip { .. }
        | Edit::Add { .. }
        | Edit::Drop { .. }
        | Edit::Collapse { .. }
        | Edit::Reduce { .. } => replace(alloc, limits, names, name, edit),
    }
}

// An edit that makes the complex anew.
fn replace(
    alloc: Global,
    limits: Limits,
    names: &mut Names,
    name: &Name,
    edit: &Edit,
) -> Result<Text, Stop>
    requires standard { IsWithinStandard limits }
    requires anew { IsTrue (makes_anew edit.now) }
    ensures passed { OnOk result (first_failing (change limits names.old name.now (editing (present names.old name.now) edit.now)).tests ≡ None) }
    ensures text { IfOk result (λ text. text ≡ (editing (present names.old name.now) edit.now).reply) }
    ensures state { OnOk result (names.new ≡ after_edit names.old name.now (editing (present names.old name.now) edit.now).complex) }
    ensures refused { IfErr result (λ stop. StopsAt stop (first_failing (change limits names.old name.now (editing (present names.old name.now) edit.now)).tests)) }
    ensures err { OnErr result (names.new ≡ names.old) }
{
    let Some(complex) = names.present(name) else {
        return Err(Stop::Refused(Condition::NoName));
    };
    let next = next(alloc, complex, edit)?;
    put(limits, names, name, next)
}

// Puts the complex in place of the present one, where the weights and the changes stay within the limits.
fn put(limits: Limits, names: &mut Names, name: &Name, next: Edited) -> Result<Text, Stop>
    requires standard { IsWithinStandard limits }
    requires held { IsTrue (holds names.old name.now) }
    ensures passed { OnOk result (first_failing (weight_test limits (after_edit names.old name.now next.complex) ∷ journal_test limits (after_edit names.old name.now next.complex) ∷ []) ≡ None) }
    ensures text { IfOk result (λ text. text ≡ next.reply) }
    ensures state { OnOk result (names.new ≡ after_edit names.old name.now next.complex) }
    ensures refused { IfErr result (λ stop. StopsAt stop (first_failing (weight_test limits (after_edit names.old name.now next.complex) ∷ journal_test limits (after_edit names.old name.now next.complex) ∷ []))) }
    ensures err { OnErr result (names.new ≡ names.old) }
{
    if names.weight_after(name, &next.complex) > limits.weight {
        return Err(Stop::Refused(Condition::SizeLimit));
    }
    if names.journal_after_edit(name, &next.complex)? > limits.journal {
        return Err(Stop::Refused(Condition::JournalFull));
    }
    names.edit(name, next.complex)?;
    Ok(next.reply)
}

fn undo(alloc: Global, limits: Limits, names: &mut Names, name: &Name) -> Result<Text, Stop>
    requires { IsWithinStandard limits }
    ensures passed { OnOk result (first_failing (undo limits names.old name.now).tests ≡ None) }
    ensures text { IfOk result (λ text. text ≡ (undo limits names.old name.now).reply) }
    ensures state { OnOk result (names.new ≡ (undo limits names.old name.now).after) }
    ensures refused { IfErr result (λ stop. StopsAt stop (first_failing (undo limits names.old name.now).tests)) }
    ensures err { OnErr result (names.new ≡ names.old) }
{
    if !names.holds(name) {
        return Err(Stop::Refused(Condition::NoName));
    }
    let Some(complex) = names.undone(name) else {
        return Err(Stop::Refused(Condition::NoPast));
    };
    if names.weight_after_undo(name) > limits.weight {
        return Err(Stop::Refused(Condition::SizeLimit));
    }
    let text = ok_reply(alloc, complex)?;
    names.undo(name)?;
    Ok(text)
}

fn redo(alloc: Global, limits: Limits, names: &mut Names, name: &Name) -> Result<Text, Stop>
    requires { IsWithinStandard limits }
    ensures passed { OnOk result (first_failing (redo limits names.old name.now).tests ≡ None) }
    ensures text { IfOk result (λ text. text ≡ (redo limits names.old name.now).reply) }
    ensures state { OnOk result (names.new ≡ (redo limits names.old name.now).after) }
    ensures refused { IfErr result (λ stop. StopsAt stop (first_failing (redo limits names.old name.now).tests)) }
    ensures err { OnErr result (names.new ≡ names.old) }
{
    if !names.holds(name) {
        return Err(Stop::Refused(Condition::NoName));
    }
    let Some(complex) = names.redone(name) else {
        return Err(Stop::Refused(Condition::NoFuture));
    };
    if names.weight_after_redo(name) > limits.weight {
        return Err(Stop::Refused(Condition::SizeLimit));
    }
    let text = ok_reply(alloc, complex)?;
    names.redo(name)?;
    Ok(text)
}
