ghost use Rattle.std.specs.Prelude.{◌≡◌, ◌<◌, ◌≤◌, ◌+◌, ◌-◌, ◌^◌, ◌++◌, ◌||◌, [], not, false, length, take, drop, OnOk, IfOk, IfSome, IfNone};
ghost use Rattle.script_text.specs.Reading.{command_of};
ghost use Rattle.script_shell.specs.Answering.{comment_after};
ghost use Rattle.script_shell.specs.InVain.{InVainIn, PieceInVain, ScriptInVain};
ghost use Rattle.script_shell.specs.Limits.{standard};
ghost use Rattle.script_shell.specs.Replays.{AreSound, Replays, certificate_in, piece_certificate};
ghost use Rattle.script_shell.specs.Transcript.{cut_from, before_others, numbered, reply_in, state_in, is_refused_in, piece_text, after_piece, piece_refuses, rest_text, transcript, is_refusing};
ghost use Rattle.script_text.specs.Tokens.{is_blank};

use crate::{Limits, Shell};
use script_text::{CommandFault, is_blank, is_in_comment, put_number, read_command};
use simplex::{Memory, Text};
use std::alloc::Global;

/// What is written for an input, and whether something in it is refused.
#[derive(Drop)]
pub struct Answers {
    pub text: Text,
    pub refusing: bool,
}

/// The transcript of a script.
#[tactic(auto, unfolding(crate::specs::Transcript::transcript, crate::specs::Transcript::is_refusing))]
pub fn transcript(alloc: Global, bytes: &[u8]) -> Result<Answers, Memory>
    ensures text { IfOk result (λ a. a.text ≡ transcript bytes.now) }
    ensures refusing { IfOk result (λ a. a.refusing ≡ is_refusing bytes.now) }
    ensures replays { OnOk result (Replays bytes.now) }
    ensures in_vain { OnOk result (ScriptInVain bytes.now) }
{
    let mut session = Session::new(alloc);
    let mut rest = bytes;
    while let Some(len) = piece_len(rest) {
        session.answer(&rest[..len])?;
        rest = &rest[len + 1..];
    }
    session.answer_rest(rest)?;
    Ok(Answers {
        text: session.text,
        refusing: session.refusing,
    })
}

// The length of the first piece, where a `;` outside comments ends it.
fn piece_len(bytes: &[u8]) -> Option<usize>
    ensures within { IfSome result (λ n. n < length bytes.now) }
    ensures cut { IfSome result (λ n. cut_from false bytes.now ≡ before_others (take n bytes.now) (cut_from false (drop (n + 1) bytes.now))) }
    ensures uncut { IfNone result (cut_from false bytes.now ≡ record { ended = []; rest = bytes.now }) }
{
    let mut comment = false;
    piece_end(&mut comment, bytes)
}

/// How many bytes there are before the first `;` outside comments. The flag says whether the byte before them belongs to a
/// comment, and then whether the last byte that was looked at does.
pub fn piece_end(comment: &mut bool, bytes: &[u8]) -> Option<usize>
    ensures within { IfSome result (λ n. n < length bytes.now) }
    ensures cut { IfSome result (λ n.
        cut_from comment.old bytes.now ≡ before_others (take n bytes.now) (cut_from false (drop (n + 1) bytes.now))) }
    ensures uncut { IfNone result (cut_from comment.old bytes.now ≡ record { ended = []; rest = bytes.now }) }
    ensures outside { IfSome result (λ _. comment.new ≡ false) }
    ensures after { IfSome result (λ n. comment_after comment.old bytes.now ≡ comment_after false (drop (n + 1) bytes.now)) }
    ensures goes_on { IfNone result (comment.new ≡ comment_after comment.old bytes.now) }
{
    for (at, byte) in bytes.iter().enumerate() {
        let inside = is_in_comment(*comment, *byte);
        *comment = inside;
        if *byte == b';' && !inside {
            return Some(at);
        }
    }
    None
}

/// A run so far: the shell, how many commands had a number, what is not yet written, and whether something was refused.
#[derive(Drop)]
pub struct Session {
    pub alloc: Global,
    pub shell: Shell,
    pub count: u64,
    pub text: Text,
    pub refusing: bool,
}

impl Session {
    /// The run before the first piece, within the limits of the program.
    pub fn new(alloc: Global) -> Session
        ensures shell { result.shell ≡ ([], standard) }
        ensures count { result.count ≡ 0 }
        ensures text { result.text ≡ [] }
        ensures refusing { result.refusing ≡ false }
    {
        Session {
            alloc,
            shell: Shell::new(alloc, Limits::STANDARD),
            count: 0,
            text: Text::new(alloc),
            refusing: false,
        }
    }

    /// Answers a piece, where it is not blank.
    pub fn answer(&mut self, piece: &[u8]) -> Result<(), Memory>
        requires standard { self.old.shell.1 ≡ standard }
        requires count { self.old.count < 2 ^ 64 - 1 }
        ensures standard { OnOk result (self.new.shell.1 ≡ standard) }
        ensures count { OnOk result (self.new.count ≤ self.old.count + 1) }
        ensures run { OnOk result (record { count = self.new.count; state = self.new.shell.0 }
            ≡ after_piece (record { count = self.old.count; state = self.old.shell.0 }) piece.now) }
        ensures text { OnOk result (self.new.text
            ≡ self.old.text ++ piece_text (record { count = self.old.count; state = self.old.shell.0 }) piece.now) }
        ensures refusing { OnOk result (self.new.refusing
            ≡ (self.old.refusing || piece_refuses (record { count = self.old.count; state = self.old.shell.0 }) piece.now)) }
        ensures sound { OnOk result (AreSound (piece_certificate (record { count = self.old.count; state = self.old.shell.0 }) piece.now)) }
        ensures in_vain { OnOk result (PieceInVain (record { count = self.old.count; state = self.old.shell.0 }) piece.now) }
    {
        if is_blank(piece) {
            return Ok(());
        }
        put_place(&mut self.text, self.count + 1)?;
        let refused = put_reply(self.alloc, &mut self.shell, piece, &mut self.text)?;
        self.count += 1;
        self.refusing = self.refusing || refused;
        Ok(())
    }

    /// Refuses the rest behind the last `;`, where it is not blank.
    pub fn answer_rest(&mut self, rest: &[u8]) -> Result<(), Memory>
        requires count { self.old.count < 2 ^ 64 - 1 }
        ensures text { OnOk result (self.new.text
            ≡ self.old.text ++ rest_text (record { count = self.old.count; state = self.old.shell.0 }) rest.now) }
        ensures refusing { OnOk result (self.new.refusing ≡ (self.old.refusing || not (is_blank rest.now))) }
    {
        if is_blank(rest) {
            return Ok(());
        }
        put_place(&mut self.text, self.count + 1)?;
        self.text.extend(b"refused unended\n")?;
        self.refusing = true;
        Ok(())
    }
}

// Appends the number of a reply.
fn put_place(out: &mut Text, number: u64) -> Result<(), Memory>
    ensures { OnOk result ((reply : _) → out.new ++ reply ≡ out.old ++ numbered number reply) }
{
    out.push(b'[')?;
    put_number(out, number as i128)?;
    out.extend(b"] ")
}

// Appends the reply to a piece that is not blank, and says whether it is a refusal.
fn put_reply(alloc: Global, shell: &mut Shell, piece: &[u8], out: &mut Text) -> Result<bool, Memory>
    requires { shell.old.1 ≡ standard }
    ensures state { OnOk result (shell.new ≡ (state_in shell.old.0 (command_of piece.now), standard)) }
    ensures text { OnOk result (out.new ≡ out.old ++ reply_in shell.old.0 (command_of piece.now)) }
    ensures refused { IfOk result (λ refused. refused ≡ is_refused_in shell.old.0 (command_of piece.now)) }
    ensures sound { OnOk result (AreSound (certificate_in shell.old.0 (command_of piece.now))) }
    ensures in_vain { OnOk result (InVainIn shell.old.0 (command_of piece.now)) }
{
    match read_command(alloc, piece) {
        Ok(command) => {
            let reply = shell.perform(&command)?;
            out.extend(reply.text())?;
            Ok(reply.refusal().is_some())
        }
        Err(CommandFault::Syntax) => {
            out.extend(b"refused syntax\n")?;
            Ok(true)
        }
        Err(CommandFault::Memory) => Err(Memory),
    }
}
