ghost use Rattle.std.specs.Prelude.{◌≡◌, Some, None, IfOk, IfSome, IsNone, IsErrOf};
ghost use Rattle.script_text.specs.Fronts.{NoneIs};
ghost use Rattle.script_text.specs.Grammar.{command_tokens};
ghost use Rattle.script_text.specs.Reading.{command_of};
ghost use Rattle.script_text.specs.Tokens.{is_blank, is_in_comment, tokens};
ghost use Rattle.script_text.specs.declared.command.Command.{Command};

use crate::forms::command_from;
use crate::parts::{read_form, read_target};
use crate::{Command, CommandFault};
use plain_text::is_white;
use simplex::Memory;
use std::alloc::Global;

/// Whether the byte belongs to a comment, where the one before it does or does not.
pub fn is_in_comment(before: bool, byte: u8) -> bool
    ensures { result ≡ is_in_comment before byte }
{
    if before { byte != b'\n' } else { byte == b'#' }
}

/// Whether the bytes are white space and comments alone.
pub fn is_blank(bytes: &[u8]) -> bool
    ensures { result ≡ is_blank bytes.now }
{
    let mut comment = false;
    for byte in bytes {
        comment = is_in_comment(comment, *byte);
        if !comment && !is_white(*byte) {
            return false;
        }
    }
    true
}

/// The command that the bytes are. `Syntax` exactly where they are none of the grammar.
pub fn read_command(alloc: Global, bytes: &[u8]) -> Result<Command, CommandFault>
    ensures exact { IfOk result (λ c. command_of bytes.now ≡ Some c) }
    ensures syntax { IsErrOf result CommandFault.Syntax → command_of bytes.now ≡ None }
    ensures spelled { IfOk result (λ c. tokens bytes.now ≡ Some (command_tokens c)) }
    ensures none_spells { IsErrOf result CommandFault.Syntax → (c : Command) →
        tokens bytes.now ≡ Some (command_tokens c) → ⊥ }
{
    match read_spelled(alloc, bytes) {
        Ok(Some(command)) => Ok(command),
        Ok(None) => Err(CommandFault::Syntax),
        Err(Memory) => Err(CommandFault::Memory),
    }
}

// The command that the bytes are, if they are one.
fn read_spelled(alloc: Global, bytes: &[u8]) -> Result<Option<Command>, Memory>
    ensures some { IfOk result (λ r. IfSome r (λ c. tokens bytes.now ≡ Some (command_tokens c))) }
    ensures none { IfOk result (λ r. IsNone r → NoneIs command_tokens (tokens bytes.now)) }
{
    let (target, rest) = read_target(bytes);
    let Some(form) = read_form(alloc, rest)? else {
        return Ok(None);
    };
    Ok(command_from(alloc, target, form))
}
