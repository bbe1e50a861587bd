ghost use Rattle.std.specs.Prelude.{◌≡◌, ◌++◌, map, IfOk, OnOk};
ghost use Rattle.std.specs.List.{join_with_byte};
ghost use Rattle.reply_texts.specs.Replies.{flip_text, flips_reply};

use plain_text::put_list;
use simplex::{Flip, Memory, Text};
use std::alloc::Global;

/// The reply that shows the flips.
pub fn flips_reply(alloc: Global, flips: &[Flip]) -> Result<Text, Memory>
    ensures { IfOk result (λ text. text ≡ flips_reply flips.now) }
{
    let mut text = Text::new(alloc);
    text.extend(b"options [")?;
    put_flips(&mut text, flips)?;
    text.extend(b"]\n")?;
    Ok(text)
}

// Appends the texts of the flips, divided by commas.
fn put_flips(out: &mut Text, flips: &[Flip]) -> Result<(), Memory>
    ensures { OnOk result (out.new ≡ out.old ++ join_with_byte 44 (map flip_text flips.now)) }
{
    let Some((first, rest)) = flips.split_first() else {
        return Ok(());
    };
    put_flip(out, first)?;
    for flip in rest {
        out.push(b',')?;
        put_flip(out, flip)?;
    }
    Ok(())
}

fn put_flip(out: &mut Text, flip: &Flip) -> Result<(), Memory>
    ensures { OnOk result (out.new ≡ out.old ++ flip_text flip.now) }
{
    put_list(out, &[flip.a, flip.b])
}
