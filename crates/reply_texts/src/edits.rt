ghost use Rattle.std.specs.Prelude.{◌≡◌, IfOk};
ghost use Rattle.reply_texts.specs.Replies.{ok_reply, reduced_reply};

use facet_set::Facets;
use plain_text::put_number;
use simplex::{Flip, Memory, Text};
use std::alloc::Global;

/// The reply that counts the facets.
pub fn ok_reply(alloc: Global, facets: &Facets) -> Result<Text, Memory>
    ensures { IfOk result (λ text. text ≡ ok_reply facets.now) }
{
    let mut text = Text::new(alloc);
    text.extend(b"ok ")?;
    put_number(&mut text, facets.as_slice().len() as i128)?;
    text.push(b'\n')?;
    Ok(text)
}

/// The reply that counts the flips to the goal of a walk and the facets of the goal.
pub fn reduced_reply(alloc: Global, flips: &[Flip], goal: &Facets) -> Result<Text, Memory>
    ensures { IfOk result (λ text. text ≡ reduced_reply flips.now goal.now) }
{
    let mut text = Text::new(alloc);
    text.extend(b"reduced ")?;
    put_number(&mut text, flips.len() as i128)?;
    text.push(b' ')?;
    put_number(&mut text, goal.as_slice().len() as i128)?;
    text.push(b'\n')?;
    Ok(text)
}
