ghost use Rattle.std.specs.Prelude.{◌≡◌, IfOk};
ghost use Rattle.reply_texts.specs.Replies.{refusal_text};

use conditions::Condition;
use simplex::{Memory, Text};
use std::alloc::Global;

/// The reply to a command that the condition refuses.
pub fn refusal_reply(alloc: Global, condition: Condition) -> Result<Text, Memory>
    ensures { IfOk result (λ text. text ≡ refusal_text condition) }
{
    let mut text = Text::new(alloc);
    text.extend(b"refused ")?;
    text.extend(condition.name().as_bytes())?;
    text.push(b'\n')?;
    Ok(text)
}
