ghost use Rattle.std.specs.Prelude.{◌≡◌, None, Some, IfOk};
ghost use Rattle.reply_texts.specs.Replies.{refusal_text};

use reply_texts::refusal_reply;
use script_text::Condition;
use simplex::{Memory, Text};
use std::alloc::Global;
use std::marker::Model;

/// What a shell answers to a command.
#[derive(Debug, Drop)]
pub struct Reply {
    text: Text,
    refusal: Option<Condition>,
}

impl Model for Reply {
    ghost use Rattle.script_shell.specs.Reply.{Answer};

    ghost Value = { Answer };

    ghost view = { λ r. record { text = r.text; refusal = r.refusal } };
}

impl Reply {
    /// The reply line with its line feed, and without its number.
    pub fn text(&self) -> &[u8]
        ensures { result.now ≡ self.now.text }
    {
        self.text.as_slice()
    }

    /// The condition that refused the command. None exactly where it was accepted.
    pub fn refusal(&self) -> Option<Condition>
        ensures { result ≡ self.now.refusal }
    {
        self.refusal
    }

    /// The reply to a command that was accepted.
    pub(crate) fn accepted(text: Text) -> Reply
        ensures { result ≡ record { text = text; refusal = None } }
    {
        Reply {
            text,
            refusal: None,
        }
    }

    /// The reply to a command that the condition refuses.
    pub(crate) fn refused(alloc: Global, condition: Condition) -> Result<Reply, Memory>
        ensures { IfOk result (λ r. r ≡ record { text = refusal_text condition; refusal = Some condition }) }
    {
        let text = refusal_reply(alloc, condition)?;
        Ok(Reply {
            text,
            refusal: Some(condition),
        })
    }
}
