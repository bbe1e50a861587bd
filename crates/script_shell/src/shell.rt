ghost use Rattle.std.specs.Prelude.{◌≡◌, [], None, Some, map, is_some, length, IfOk, IfSome, OnOk, IfErr, OnErr};
ghost use Rattle.std.specs.List.{flat_map};
ghost use Rattle.simplex.specs.FirstFailing.{first_failing};
ghost use Rattle.simplex.specs.SimplexFault.{set};
ghost use Rattle.facet_set.specs.Complex.{generated};
ghost use Rattle.reply_texts.specs.Replies.{facets_reply};
ghost use Rattle.shell_names.specs.State.{holds, entry, present};
ghost use Rattle.script_shell.specs.Commands.{meaning, failed, state_after, reply_to, list_tests};
ghost use Rattle.script_shell.specs.InVain.{ReplyInVain, VerdictInVain};
ghost use Rattle.script_shell.specs.Limits.{IsWithin, IsWithinStandard};
ghost use Rattle.script_shell.specs.Replays.{AreSound, certificate_for, certificate_to};
ghost use Rattle.script_shell.specs.Stops.{StopsAt};

use crate::asking::ask;
use crate::changing::change;
use crate::deciding::{equivalent, manifold, sphere};
use crate::lists::generated;
use crate::making::assign;
use crate::stop::Stop;
use crate::{Limits, Reply};
use facet_set::Facets;
use reply_texts::facets_reply;
use script_text::{Command, Name};
use shell_names::Names;
use simplex::{Lists, Memory, Text};
use std::alloc::Global;
use std::marker::Model;

/// A shell: named complexes under limits, and the commands on them.
#[derive(Drop)]
pub struct Shell {
    alloc: Global,
    limits: Limits,
    names: Names,
}

impl Model for Shell {
    ghost use Rattle.script_shell.specs.Limits.{IsHeld};
    ghost use Rattle.shell_names.specs.State.{State};
    ghost use Rattle.script_shell.specs.declared.limits.Limits.{Limits};

    ghost Value = { State × Limits };

    ghost view = { λ s. (s.names, s.limits) };

    ghost invariant = { λ s. IsHeld s.limits s.names };
}

impl Shell {
    /// A shell that holds no names. It takes no memory.
    pub fn new(alloc: Global, limits: Limits) -> Shell
        requires { IsWithinStandard limits }
        ensures value { result ≡ ([], limits) }
        ensures within { IsWithin result.1 result.0 }
    {
        Shell {
            alloc,
            limits,
            names: Names::new(alloc),
        }
    }

    /// Does what the command says and answers it. A refused command and `Memory` change nothing.
    pub fn perform(&mut self, command: &Command) -> Result<Reply, Memory>
        ensures state { OnOk result (self.new ≡ (state_after self.old.1 self.old.0 command.now, self.old.1)) }
        ensures text { IfOk result (λ r. r.text ≡ reply_to self.old.1 self.old.0 command.now) }
        ensures refusal { IfOk result (λ r. r.refusal ≡ failed self.old.1 self.old.0 command.now) }
        ensures sound { OnOk result (AreSound (certificate_to self.old.1 self.old.0 command.now)) }
        ensures vain { OnOk result (ReplyInVain self.old.1 self.old.0 command.now) }
        ensures within { IsWithin self.new.1 self.new.0 }
        ensures err { OnErr result (self.new ≡ self.old) }
    {
        match self.obey(command) {
            Ok(text) => Ok(Reply::accepted(text)),
            Err(Stop::Refused(condition)) => Reply::refused(self.alloc, condition),
            Err(Stop::Memory) => Err(Memory),
        }
    }

    // Does what the command says, and gives the reply where no condition refuses it.
    fn obey(&mut self, command: &Command) -> Result<Text, Stop>
        ensures passed { OnOk result (failed self.old.1 self.old.0 command.now ≡ None) }
        ensures text { IfOk result (λ text. text ≡ (meaning self.old.1 self.old.0 command.now).reply) }
        ensures state { OnOk result (self.new ≡ ((meaning self.old.1 self.old.0 command.now).after, self.old.1)) }
        ensures refused { IfErr result (λ stop. StopsAt stop (failed self.old.1 self.old.0 command.now)) }
        ensures sound { OnOk result (AreSound (certificate_for self.old.0 command.now)) }
        ensures vain { OnOk result (VerdictInVain self.old.0 command.now) }
        ensures within { IsWithin self.new.1 self.new.0 }
        ensures err { OnErr result (self.new ≡ self.old) }
    {
        match command {
            Command::Show { lists } => show(self.alloc, lists),
            Command::Make { name, maker } => {
                assign(self.alloc, self.limits, &mut self.names, name, maker)
            }
            Command::Ask { name, question } => ask(self.alloc, &self.names, name, question),
            Command::Change { name, edit } => {
                change(self.alloc, self.limits, &mut self.names, name, edit)
            }
            Command::Sphere { name, budget, seed } => {
                sphere(self.alloc, &self.names, name, *budget, *seed)
            }
            Command::Equivalent {
                left,
                right,
                budget,
                seed,
            } => equivalent(self.alloc, &self.names, left, right, *budget, *seed),
            Command::Manifold { name, budget, seed } => {
                manifold(self.alloc, &self.names, name, *budget, *seed)
            }
        }
    }

    /// The present complex of the name. None exactly where it is not held.
    pub fn present(&self, name: &Name) -> Result<Option<Facets>, Memory>
        ensures held { IfOk result (λ c. is_some c ≡ holds self.now.0 name.now) }
        ensures value { IfOk result (λ c. IfSome c (λ c. c ≡ present self.now.0 name.now)) }
    {
        match self.names.present(name) {
            Some(complex) => Ok(Some(complex.copy()?)),
            None => Ok(None),
        }
    }

    /// The number of past complexes of the name. None exactly where it is not held.
    pub fn past_len(&self, name: &Name) -> Option<usize>
        ensures held { is_some result ≡ holds self.now.0 name.now }
        ensures value { IfSome result (λ n. n ≡ length (entry self.now.0 name.now).past) }
    {
        self.names.past_len(name)
    }

    /// The number of future complexes of the name. None exactly where it is not held.
    pub fn future_len(&self, name: &Name) -> Option<usize>
        ensures held { is_some result ≡ holds self.now.0 name.now }
        ensures value { IfSome result (λ n. n ≡ length (entry self.now.0 name.now).future) }
    {
        self.names.future_len(name)
    }
}

// The complex that the lists generate.
fn show(alloc: Global, lists: &Lists) -> Result<Text, Stop>
    ensures passed { OnOk result (first_failing (flat_map list_tests lists.now) ≡ None) }
    ensures text { IfOk result (λ text. text ≡ facets_reply (generated (map set lists.now))) }
    ensures refused { IfErr result (λ stop. StopsAt stop (first_failing (flat_map list_tests lists.now))) }
{
    let facets = generated(alloc, lists)?;
    Ok(facets_reply(alloc, &facets)?)
}
