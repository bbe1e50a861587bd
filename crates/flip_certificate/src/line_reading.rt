// The line that bytes are: what they may be is guessed, and the guess is checked against its spelling.
ghost use Rattle.std.specs.Prelude.{◌≡◌, IfOk};
ghost use Rattle.plain_text.specs.Bytes.{is_text};
ghost use Rattle.flip_certificate.specs.Lines.{line_text};
ghost use Rattle.flip_certificate.specs.Reading.{line_of};

use crate::guessing::guess_line;
use crate::line::Line;
use crate::writing::put_line;
use simplex::{Memory, Text};
use std::alloc::Global;

// What the reading of one line leaves to the next, so that it need not be made anew.
#[derive(Drop)]
pub struct Buffers {
    // The numbers in a list.
    numbers: Vec<u32>,
    // The spelling of each line so far that was well formed.
    spelled: Text,
}

impl Buffers {
    /// Empty buffers, which take no memory.
    pub fn new(alloc: Global) -> Buffers {
        Buffers {
            numbers: Vec::new(alloc),
            spelled: Text::new(alloc),
        }
    }

    /// The line whose text the bytes are. None exactly where there is none. The bytes have no line feed.
    pub fn line_of(&mut self, alloc: Global, bytes: &[u8]) -> Result<Option<Line>, Memory>
        ensures { IfOk result (λ r. r ≡ line_of bytes.now) }
    {
        let Some(line) = guess_line(alloc, &mut self.numbers, bytes)? else {
            return Ok(None);
        };
        if spells(&mut self.spelled, &line, bytes)? {
            Ok(Some(line))
        } else {
            Ok(None)
        }
    }
}

// Whether the bytes are the text of the line, which is appended with its line feed.
fn spells(spelled: &mut Text, line: &Line, bytes: &[u8]) -> Result<bool, Memory>
    ensures { IfOk result (λ b. b ≡ is_text bytes.now (line_text line.now)) }
{
    let start = spelled.len();
    put_line(spelled, line)?;
    let text = &spelled.as_slice()[start..];
    Ok(bytes == &text[..text.len() - 1])
}
