ghost use Rattle.std.specs.Prelude.{◌≡◌, map, pos, IfOk};
ghost use Rattle.reply_texts.specs.Replies.{faces_reply, facets_reply, number_reply, numbers_reply, yes_or_no};

use facet_set::Facets;
use plain_text::{put_facets, put_list, put_number};
use simplex::{Memory, Simplex, Text};
use std::alloc::Global;

/// The reply that shows the facets.
pub fn facets_reply(alloc: Global, facets: &Facets) -> Result<Text, Memory>
    ensures { IfOk result (λ text. text ≡ facets_reply facets.now) }
{
    let mut text = Text::new(alloc);
    text.extend(b"facets ")?;
    put_facets(&mut text, facets.as_slice())?;
    text.push(b'\n')?;
    Ok(text)
}

/// The reply that shows the faces.
pub fn faces_reply(alloc: Global, faces: &[Simplex]) -> Result<Text, Memory>
    ensures { IfOk result (λ text. text ≡ faces_reply faces.now) }
{
    let mut text = Text::new(alloc);
    text.extend(b"faces ")?;
    put_facets(&mut text, faces)?;
    text.push(b'\n')?;
    Ok(text)
}

/// The reply that shows the number behind the word and its space.
pub fn number_reply(alloc: Global, word: &[u8], number: i128) -> Result<Text, Memory>
    ensures { IfOk result (λ text. text ≡ number_reply word.now number) }
{
    let mut text = Text::new(alloc);
    text.extend(word)?;
    put_number(&mut text, number)?;
    text.push(b'\n')?;
    Ok(text)
}

/// The reply that shows the integers of a row behind the word and its space.
pub fn row_reply(alloc: Global, word: &[u8], row: &[i64]) -> Result<Text, Memory>
    ensures { IfOk result (λ text. text ≡ numbers_reply word.now row.now) }
{
    let mut text = Text::new(alloc);
    text.extend(word)?;
    put_list(&mut text, row)?;
    text.push(b'\n')?;
    Ok(text)
}

/// The reply that shows the numbers behind the word and its space.
pub fn numbers_reply(alloc: Global, word: &[u8], numbers: &[u64]) -> Result<Text, Memory>
    ensures { IfOk result (λ text. text ≡ numbers_reply word.now (map pos numbers.now)) }
{
    let mut text = Text::new(alloc);
    text.extend(word)?;
    put_list(&mut text, numbers)?;
    text.push(b'\n')?;
    Ok(text)
}

/// The reply that says yes or no behind the word and its space.
pub fn yes_or_no(alloc: Global, word: &[u8], yes: bool) -> Result<Text, Memory>
    ensures { IfOk result (λ text. text ≡ yes_or_no word.now yes) }
{
    let mut text = Text::new(alloc);
    text.extend(word)?;
    text.extend(if yes { b"yes" } else { b"no" })?;
    text.push(b'\n')?;
    Ok(text)
}
