//! The form `run`: each command is answered as soon as its `;` was taken, and its reply is written before the next read.
ghost use Rattle.std.specs.Prelude.{◌≡◌, ◌≤◌, ◌<◌, ◌+◌, ◌-◌, ◌^◌, ◌∷◌, [], ℕ, List, false, true, not, ◌||◌, ◌≢◌, Err, is_ok, OnOk, OnErr, IfOk, IfErr, IfSome, IsErrOf, length};
ghost use Rattle.run_ends.specs.Counts.{Rose};
ghost use Rattle.run_ends.specs.Ends.{AtEnd, Grows, HasSinkCause};
ghost use Rattle.script_text.specs.Tokens.{is_blank};
ghost use Rattle.script_shell.specs.Answering.{AnswersAll, Leads, StopsAfter, comment_after, pieces_with};
ghost use Rattle.script_shell.specs.Exits.{IsOneOf};
ghost use Rattle.script_shell.specs.InVain.{ScriptInVain};
ghost use Rattle.script_shell.specs.Limits.{standard};
ghost use Rattle.script_shell.specs.Replays.{Replays};
ghost use Rattle.script_shell.specs.Streams.{Gave, GrowsByFront, input_limit};
ghost use Rattle.script_shell.specs.Transcript.{answers, is_refusing, piece_text, rest_text, start, transcript};

use crate::exit::Exit;
use crate::stream::{PIECE, read_bytes, send, write_all, zeros};
use crate::transcript::{Session, piece_end};
use run_ends::{Sink, SinkFault, Source};
use simplex::Text;
use std::alloc::Global;

// A run between two reads.
#[derive(Drop)]
struct Conversation {
    session: Session,
    // the bytes behind the last `;`, which end no piece yet
    piece: Vec<u8>,
    // whether the last of them belongs to a comment
    comment: bool,
}

impl Conversation {
    fn new(alloc: Global) -> Conversation
        ensures run { record { count = result.session.count; state = result.session.shell.0 } ≡ start }
        ensures standard { result.session.shell.1 ≡ standard }
        ensures text { result.session.text ≡ [] }
        ensures refusing { result.session.refusing ≡ false }
        ensures piece { result.piece.items ≡ [] }
        ensures comment { result.comment ≡ false }
    {
        Conversation {
            session: Session::new(alloc),
            piece: Vec::new(alloc),
            comment: false,
        }
    }

    // Answers the piece and writes the reply.
    fn answer<K: Sink>(&mut self, sink: &mut K) -> Result<(), SinkFault>
        requires standard { self.old.session.shell.1 ≡ standard }
        requires text { self.old.session.text ≡ [] }
        requires count { self.old.session.count < 2 ^ 64 - 1 }
        ensures standard { OnOk result (self.new.session.shell.1 ≡ standard) }
        ensures text { OnOk result (self.new.session.text ≡ []) }
        ensures count { OnOk result (self.new.session.count ≤ self.old.session.count + 1) }
        ensures leads { OnOk result (Leads (record { count = self.old.session.count; state = self.old.session.shell.0 })
            (record { count = self.new.session.count; state = self.new.session.shell.0 })
            self.old.session.refusing self.new.session.refusing (self.old.piece.items ∷ [])) }
        ensures written { OnOk result (Grows (K.written sink.old) (K.written sink.new)
            (piece_text (record { count = self.old.session.count; state = self.old.session.shell.0 }) self.old.piece.items)) }
        ensures front { GrowsByFront (K.written sink.old) (K.written sink.new)
            (piece_text (record { count = self.old.session.count; state = self.old.session.shell.0 }) self.old.piece.items) }
        ensures piece { OnOk result (self.new.piece.items ≡ []) }
        ensures comment { self.new.comment ≡ self.old.comment }
        ensures finished { K.finished sink.old ≡ false → K.finished sink.new ≡ false }
        ensures cause { HasSinkCause (K.faults sink.old) (K.faults sink.new) result }
    {
        let Ok(()) = self.session.answer(self.piece.as_slice()) else {
            return Err(SinkFault::Memory);
        };
        write_all(sink, self.session.text.as_slice())?;
        self.session.text = Text::new(self.session.alloc);
        self.piece.clear();
        Ok(())
    }

    // Answers each piece that ends in these bytes, and keeps the bytes behind the last `;`.
    fn take<K: Sink>(&mut self, bytes: &[u8], sink: &mut K) -> Result<(), SinkFault>
        requires standard { self.old.session.shell.1 ≡ standard }
        requires text { self.old.session.text ≡ [] }
        requires count { self.old.session.count + length bytes.now < 2 ^ 64 - 1 }
        ensures standard { OnOk result (self.new.session.shell.1 ≡ standard) }
        ensures text { OnOk result (self.new.session.text ≡ []) }
        ensures count { OnOk result (self.new.session.count ≤ self.old.session.count + length bytes.now) }
        ensures leads { OnOk result (Leads (record { count = self.old.session.count; state = self.old.session.shell.0 })
            (record { count = self.new.session.count; state = self.new.session.shell.0 })
            self.old.session.refusing self.new.session.refusing (pieces_with self.old.piece.items self.old.comment bytes.now).ended) }
        ensures written { OnOk result (Grows (K.written sink.old) (K.written sink.new)
            (answers (record { count = self.old.session.count; state = self.old.session.shell.0 })
            (pieces_with self.old.piece.items self.old.comment bytes.now).ended)) }
        ensures front { GrowsByFront (K.written sink.old) (K.written sink.new)
            (answers (record { count = self.old.session.count; state = self.old.session.shell.0 })
            (pieces_with self.old.piece.items self.old.comment bytes.now).ended) }
        ensures piece { OnOk result (self.new.piece.items ≡ (pieces_with self.old.piece.items self.old.comment bytes.now).rest) }
        ensures comment { OnOk result (self.new.comment ≡ comment_after self.old.comment bytes.now) }
        ensures finished { K.finished sink.old ≡ false → K.finished sink.new ≡ false }
        ensures cause { HasSinkCause (K.faults sink.old) (K.faults sink.new) result }
    {
        let mut rest = bytes;
        while let Some(len) = piece_end(&mut self.comment, rest) {
            self.piece.extend_from_slice(&rest[..len])?;
            self.answer(sink)?;
            rest = &rest[len + 1..];
        }
        self.piece.extend_from_slice(rest)?;
        Ok(())
    }

    // Refuses what no `;` ends, and finishes.
    fn end<K: Sink>(&mut self, sink: &mut K) -> Result<(), SinkFault>
        requires text { self.old.session.text ≡ [] }
        requires count { self.old.session.count < 2 ^ 64 - 1 }
        requires unfinished { K.finished sink.old ≡ false }
        ensures refusing { OnOk result (self.new.session.refusing ≡ (self.old.session.refusing || not (is_blank self.old.piece.items))) }
        ensures written { OnOk result (Grows (K.written sink.old) (K.written sink.new)
            (rest_text (record { count = self.old.session.count; state = self.old.session.shell.0 }) self.old.piece.items)) }
        ensures front { GrowsByFront (K.written sink.old) (K.written sink.new)
            (rest_text (record { count = self.old.session.count; state = self.old.session.shell.0 }) self.old.piece.items) }
        ensures finished { K.finished sink.new ≡ is_ok result }
        ensures cause { HasSinkCause (K.faults sink.old) (K.faults sink.new) result }
    {
        let Ok(()) = self.session.answer_rest(self.piece.as_slice()) else {
            return Err(SinkFault::Memory);
        };
        send(sink, self.session.text.as_slice())
    }

    // Answers the source command by command up to its end, and says whether something is refused; or the exit where it stops early.
    fn go_on<S: Source, K: Sink>(&mut self, source: &mut S, sink: &mut K) -> Result<bool, Exit>
        requires run { record { count = self.old.session.count; state = self.old.session.shell.0 } ≡ start }
        requires standard { self.old.session.shell.1 ≡ standard }
        requires text { self.old.session.text ≡ [] }
        requires refusing { self.old.session.refusing ≡ false }
        requires piece { self.old.piece.items ≡ [] }
        requires comment { self.old.comment ≡ false }
        requires unfinished { K.finished sink.old ≡ false }
        ensures all { IfOk result (λ refusing. AnswersAll refusing (S.left source.old) (S.left source.new)
            (S.taken source.old) (S.taken source.new) (K.written sink.old) (K.written sink.new)) }
        ensures early { IfErr result (λ e. StopsAfter e (S.left source.old) (S.left source.new)
            (S.taken source.old) (S.taken source.new) (K.written sink.old) (K.written sink.new)) }
        ensures kind { IfErr result (λ e. IsOneOf e (Exit.Memory ∷ Exit.ReadFault ∷ Exit.WriteFault ∷ Exit.TooLong ∷ [])) }
        ensures finished { K.finished sink.new ≡ is_ok result }
        ensures read_fault { IsErrOf result Exit.ReadFault → Rose (S.faults source.old) (S.faults source.new) }
        ensures read_told { result ≢ Err Exit.ReadFault → S.faults source.new ≡ S.faults source.old }
        ensures write_fault { IsErrOf result Exit.WriteFault → Rose (K.faults sink.old) (K.faults sink.new) }
        ensures write_told { result ≢ Err Exit.WriteFault → K.faults sink.new ≡ K.faults sink.old }
        ensures long { IsErrOf result Exit.TooLong → S.taken source.new ≡ S.taken source.old + input_limit + 1 }
        ensures short { result ≢ Err Exit.TooLong → S.taken source.new ≤ S.taken source.old + input_limit }
    {
        let mut piece = zeros(self.session.alloc, PIECE)?;
        let mut taken = 0;
        'reads: loop {
            let count = read_bytes(source, &mut piece, taken)?;
            if count == 0 {
                break 'reads;
            }
            taken += count;
            self.take(&piece[..count], sink)?;
        }
        self.end(sink)?;
        Ok(self.session.refusing)
    }
}

/// Answers each command of the source as soon as its `;` was taken, and at the end what no `;` ends.
pub fn converse<S: Source, K: Sink>(alloc: Global, source: &mut S, sink: &mut K) -> Exit
    requires unfinished { K.finished sink.old ≡ false }
    ensures kind { IsOneOf result (Exit.Done ∷ Exit.Refused ∷ Exit.Memory ∷ Exit.ReadFault ∷ Exit.WriteFault ∷ Exit.TooLong ∷ []) }
    ensures done { result ≡ Exit.Done → IfSome (S.left source.old) (λ bytes.
        Grows (K.written sink.old) (K.written sink.new) (transcript bytes)) }
    ensures done_refuses_nothing { result ≡ Exit.Done → IfSome (S.left source.old) (λ bytes. is_refusing bytes ≡ false) }
    ensures refused { result ≡ Exit.Refused → IfSome (S.left source.old) (λ bytes.
        Grows (K.written sink.old) (K.written sink.new) (transcript bytes)) }
    ensures refused_refuses { result ≡ Exit.Refused → IfSome (S.left source.old) (λ bytes. is_refusing bytes ≡ true) }
    ensures replays { IsOneOf result (Exit.Done ∷ Exit.Refused ∷ []) → IfSome (S.left source.old) (λ bytes. Replays bytes) }
    ensures in_vain { IsOneOf result (Exit.Done ∷ Exit.Refused ∷ []) → IfSome (S.left source.old) (λ bytes. ScriptInVain bytes) }
    ensures at_end { IsOneOf result (Exit.Done ∷ Exit.Refused ∷ []) → AtEnd (S.left source.new) }
    ensures gave { (bytes : List ℕ)
        × Gave (S.left source.old) (S.left source.new) (S.taken source.old) (S.taken source.new) bytes }
    ensures early { IsOneOf result (Exit.Memory ∷ Exit.ReadFault ∷ Exit.WriteFault ∷ Exit.TooLong ∷ [])
        → StopsAfter result (S.left source.old) (S.left source.new)
        (S.taken source.old) (S.taken source.new) (K.written sink.old) (K.written sink.new) }
    ensures finished { IsOneOf result (Exit.Done ∷ Exit.Refused ∷ []) → K.finished sink.new ≡ true }
    ensures unfinished { IsOneOf result (Exit.Memory ∷ Exit.ReadFault ∷ Exit.WriteFault ∷ Exit.TooLong ∷ [])
        → K.finished sink.new ≡ false }
    ensures read_fault { result ≡ Exit.ReadFault → Rose (S.faults source.old) (S.faults source.new) }
    ensures read_told { result ≢ Exit.ReadFault → S.faults source.new ≡ S.faults source.old }
    ensures write_fault { result ≡ Exit.WriteFault → Rose (K.faults sink.old) (K.faults sink.new) }
    ensures write_told { result ≢ Exit.WriteFault → K.faults sink.new ≡ K.faults sink.old }
    ensures long { result ≡ Exit.TooLong → S.taken source.new ≡ S.taken source.old + input_limit + 1 }
    ensures short { result ≢ Exit.TooLong → S.taken source.new ≤ S.taken source.old + input_limit }
{
    let mut conversation = Conversation::new(alloc);
    match conversation.go_on(source, sink) {
        Ok(false) => Exit::Done,
        Ok(true) => Exit::Refused,
        Err(exit) => exit,
    }
}
