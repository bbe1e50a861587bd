ghost use Rattle.std.specs.Prelude.{◌≡◌, ◌++◌, codes, decimal, IfOk, IsTrue};
ghost use Rattle.flip_certificate.specs.Lines.{is_shaped};
ghost use Rattle.reply_texts.specs.Replies.{undecided_at_reply, undecided_reply, yes_reply};

use flip_certificate::{Certificate, flip_count, write};
use plain_text::put_number;
use simplex::{Memory, Text};
use std::alloc::Global;

/// The reply of a verdict that is yes: the word of the certificate and the number of its flips, and then its text.
pub fn yes_reply(alloc: Global, c: &Certificate) -> Result<Text, Memory>
    requires { IsTrue (is_shaped c.now) }
    ensures { IfOk result (λ text. text ≡ yes_reply c.now) }
{
    let certificate = write(alloc, c)?;
    let mut text = Text::new(alloc);
    text.extend(c.kind().text())?;
    text.push(b' ')?;
    put_number(&mut text, flip_count(c) as i128)?;
    text.push(b'\n')?;
    text.extend(certificate.as_slice())?;
    Ok(text)
}

/// The reply of a verdict that is open after so many flips.
pub fn undecided_reply(alloc: Global, spent: u64) -> Result<Text, Memory>
    ensures { IfOk result (λ text. text ≡ undecided_reply spent) }
{
    let mut line = undecided(alloc, spent)?;
    line.push(b'\n')?;
    Ok(line)
}

/// The reply of a verdict that is open at the vertex after so many flips.
pub fn undecided_at_reply(alloc: Global, spent: u64, vertex: u32) -> Result<Text, Memory>
    ensures { IfOk result (λ text. text ≡ undecided_at_reply spent vertex) }
{
    let mut text = undecided(alloc, spent)?;
    text.extend(b" vertex ")?;
    put_number(&mut text, vertex as i128)?;
    text.push(b'\n')?;
    Ok(text)
}

// The front of both, up to the number of flips.
fn undecided(alloc: Global, spent: u64) -> Result<Text, Memory>
    ensures { IfOk result (λ text. text ≡ codes "undecided " ++ decimal spent) }
{
    let mut text = Text::new(alloc);
    text.extend(b"undecided ")?;
    put_number(&mut text, spent as i128)?;
    Ok(text)
}
