ghost use Rattle.std.specs.Prelude.{◌≡◌, ◌≤◌, ◌<◌, ◌+◌, ◌≢◌, ℕ, List, Err, false, OnOk, OnErr, IfOk, IsErrOf, is_ok, length, take, vec_len};
ghost use Rattle.run_ends.specs.Counts.{Rose};
ghost use Rattle.run_ends.specs.Ends.{Grows, Loses, AtEnd, HasSinkCause};
ghost use Rattle.script_shell.specs.Streams.{GrowsByFront, Gave};

use run_ends::{Failed, Sink, SinkFault, Source};
use simplex::Memory;
use std::alloc::{AllocError, Global};

/// The most bytes that an input has.
pub const INPUT_LIMIT: usize = 16_777_216;

/// The most bytes that one read asks for.
pub const PIECE: usize = 65_536;

/// Why an input was not read to its end.
#[derive(Clone, Copy, Debug, PartialEq, Eq)]
pub enum ReadEnd {
    /// The source failed.
    Failed,
    /// More bytes came than the limit allows.
    TooLong,
    /// Want of memory.
    Memory,
}

impl From<AllocError> for ReadEnd {
    ghost use Rattle.std.specs.Prelude.{◌≡◌};
    ghost use Rattle.script_shell.specs.declared.stream.ReadEnd.TheVariants.{Memory};

    ghost from_gives = { λ _ e. e ≡ Memory };

    fn from(_: AllocError) -> ReadEnd {
        ReadEnd::Memory
    }
}

/// Writes the whole text. At an `Err` a front of it was written.
pub fn write_all<K: Sink>(sink: &mut K, text: &[u8]) -> Result<(), SinkFault>
    ensures bytes { OnOk result (Grows (K.written sink.old) (K.written sink.new) text.now) }
    ensures finished { K.finished sink.old ≡ false → K.finished sink.new ≡ false }
    ensures unfinished { OnErr result (K.finished sink.new ≡ false) }
    ensures front { GrowsByFront (K.written sink.old) (K.written sink.new) text.now }
    ensures cause { HasSinkCause (K.faults sink.old) (K.faults sink.new) result }
{
    let mut at = 0;
    while at < text.len() {
        at += sink.write(&text[at..])?;
    }
    Ok(())
}

/// Writes the whole text and finishes. At an `Err` a front of it was written, and the sink is not finished.
pub fn send<K: Sink>(sink: &mut K, text: &[u8]) -> Result<(), SinkFault>
    ensures bytes { OnOk result (Grows (K.written sink.old) (K.written sink.new) text.now) }
    ensures finished { K.finished sink.new ≡ is_ok result }
    ensures front { GrowsByFront (K.written sink.old) (K.written sink.new) text.now }
    ensures cause { HasSinkCause (K.faults sink.old) (K.faults sink.new) result }
{
    write_all(sink, text)?;
    match sink.finish() {
        Ok(()) => Ok(()),
        Err(Failed) => Err(SinkFault::Failed),
    }
}

/// As many zeros.
pub fn zeros(alloc: Global, count: usize) -> Result<Vec<u8>, AllocError>
    ensures { IfOk result (λ v. vec_len v ≡ count) }
{
    vec![in alloc; 0u8; count]
}

/// Reads all that is left, if it is no more than the limit.
pub fn read_all<S: Source>(alloc: Global, source: &mut S) -> Result<Vec<u8>, ReadEnd>
    ensures all { IfOk result (λ v. Gave (S.left source.old) (S.left source.new) (S.taken source.old) (S.taken source.new) v.items) }
    ensures end { OnOk result (AtEnd (S.left source.new)) }
    ensures failed { IsErrOf result ReadEnd.Failed → Rose (S.faults source.old) (S.faults source.new) }
    ensures long { IsErrOf result ReadEnd.TooLong → S.taken source.new ≡ S.taken source.old + INPUT_LIMIT + 1 }
    ensures within { result ≢ Err ReadEnd.TooLong → S.taken source.new ≤ S.taken source.old + INPUT_LIMIT }
    ensures gave { (bytes : List ℕ) × Gave (S.left source.old) (S.left source.new) (S.taken source.old) (S.taken source.new) bytes }
    ensures later { S.faults source.old ≤ S.faults source.new }
    ensures told { result ≢ Err ReadEnd.Failed → S.faults source.new ≡ S.faults source.old }
{
    let mut bytes = Vec::new(alloc);
    let mut piece = zeros(alloc, PIECE)?;
    'pieces: loop {
        let count = take_piece(source, &mut piece, &mut bytes)?;
        if count == 0 {
            break 'pieces;
        }
    }
    Ok(bytes)
}

// Reads once, and adds what came to the bytes.
fn take_piece<S: Source>(
    source: &mut S,
    piece: &mut [u8],
    bytes: &mut Vec<u8>,
) -> Result<usize, ReadEnd>
    requires some { 0 < length piece.old }
    requires room { vec_len bytes.old ≤ INPUT_LIMIT }
    ensures bytes { OnOk result ((start : _) → Loses start (S.left source.old) bytes.old.items
        → Loses start (S.left source.new) bytes.new.items) }
    ensures gave { (bytes : List ℕ) × Gave (S.left source.old) (S.left source.new) (S.taken source.old) (S.taken source.new) bytes }
    ensures count { IfOk result (λ n. vec_len bytes.new ≡ vec_len bytes.old + n) }
    ensures taken { IfOk result (λ n. S.taken source.new ≡ S.taken source.old + n) }
    ensures within { IfOk result (λ n. n ≤ length piece.old) }
    ensures end { IfOk result (λ n. n ≡ 0 → AtEnd (S.left source.new)) }
    ensures failed { IsErrOf result ReadEnd.Failed → Rose (S.faults source.old) (S.faults source.new) }
    ensures long { IsErrOf result ReadEnd.TooLong
        → S.taken source.new + vec_len bytes.old ≡ S.taken source.old + INPUT_LIMIT + 1 }
    ensures short { result ≢ Err ReadEnd.TooLong
        → S.taken source.new + vec_len bytes.old ≤ S.taken source.old + INPUT_LIMIT }
    ensures later { S.faults source.old ≤ S.faults source.new }
    ensures told { result ≢ Err ReadEnd.Failed → S.faults source.new ≡ S.faults source.old }
{
    let count = read_bytes(source, piece, bytes.len())?;
    bytes.extend_from_slice(&piece[..count])?;
    Ok(count)
}

/// Reads once into the front of the buffer, and says how many bytes came; so many were taken before. It asks for no more than one
/// byte above the limit, and above the limit it is `TooLong`.
pub fn read_bytes<S: Source>(
    source: &mut S,
    buffer: &mut [u8],
    taken: usize,
) -> Result<usize, ReadEnd>
    requires some { 0 < length buffer.old }
    requires room { taken ≤ INPUT_LIMIT }
    ensures bytes { IfOk result (λ n. Loses (S.left source.old) (S.left source.new) (take n buffer.new)) }
    ensures gave { (bytes : List ℕ) × Gave (S.left source.old) (S.left source.new) (S.taken source.old) (S.taken source.new) bytes }
    ensures most { S.taken source.new ≤ S.taken source.old + length buffer.old }
    ensures len { length buffer.new ≡ length buffer.old }
    ensures taken { IfOk result (λ n. S.taken source.new ≡ S.taken source.old + n) }
    ensures within { IfOk result (λ n. (n ≤ length buffer.old) × (taken + n ≤ INPUT_LIMIT)) }
    ensures end { IfOk result (λ n. n ≡ 0 → AtEnd (S.left source.new)) }
    ensures memory { result ≢ Err ReadEnd.Memory }
    ensures failed { IsErrOf result ReadEnd.Failed → Rose (S.faults source.old) (S.faults source.new) }
    ensures failed_left { IsErrOf result ReadEnd.Failed → S.left source.new ≡ S.left source.old }
    ensures failed_taken { IsErrOf result ReadEnd.Failed → S.taken source.new ≡ S.taken source.old }
    ensures long { IsErrOf result ReadEnd.TooLong → S.taken source.new + taken ≡ S.taken source.old + INPUT_LIMIT + 1 }
    ensures short { result ≢ Err ReadEnd.TooLong → S.taken source.new + taken ≤ S.taken source.old + INPUT_LIMIT }
    ensures later { S.faults source.old ≤ S.faults source.new }
    ensures told { result ≢ Err ReadEnd.Failed → S.faults source.new ≡ S.faults source.old }
{
    let room = buffer.len().min(INPUT_LIMIT + 1 - taken);
    let count = match source.read(&mut buffer[..room]) {
        Ok(count) => count,
        Err(Failed) => return Err(ReadEnd::Failed),
    };
    if count > INPUT_LIMIT - taken {
        return Err(ReadEnd::TooLong);
    }
    Ok(count)
}
