ghost use Rattle.std.specs.Prelude.{◌≡◌, ◌≢◌, ◌≤◌, [], Some, Err, false, true, IfOk, IsOk, length, min, is_ok};
ghost use Rattle.run_ends.specs.Ends.{WritesBytes, Writes, Stays, HasCause, HasSinkCause};

use crate::{Failed, Sink, SinkFault};
use std::alloc::Global;
use std::marker::Model;

/// A sink in memory that never answers `Failed`. It grows as it is written.
#[derive(Drop)]
pub struct SureSink {
    bytes: Vec<u8>,
    finished: bool,
    piece: usize,
}

impl Model for SureSink {
    ghost use Rattle.std.specs.Prelude.{◌≤◌};
    ghost use Rattle.run_ends.specs.Memory.{SureSinkState};

    ghost Value = { SureSinkState };

    ghost view = { λ s. record {
      written = s.bytes.items;
      finished = s.finished;
      piece = s.piece;
    } };

    ghost invariant = { λ s. 1 ≤ s.piece };
}

impl SureSink {
    /// A write appends at most `piece` bytes.
    pub fn new(alloc: Global, piece: usize) -> SureSink
        requires some { 1 ≤ piece }
        ensures start { result ≡ record { written = []; finished = false; piece = piece } }
    {
        SureSink {
            bytes: Vec::new(alloc),
            finished: false,
            piece,
        }
    }

    /// The bytes written so far.
    pub fn written(&self) -> &[u8]
        ensures bytes { result.now ≡ self.now.written }
    {
        self.bytes.as_slice()
    }
}

impl Sink for SureSink {
    ghost written = { λ s. Some s.written };

    ghost finished = { λ s. s.finished };

    ghost faults = { λ _. 0 };

    fn write(&mut self, bytes: &[u8]) -> Result<usize, SinkFault>
        ensures bound { Writes result bytes.now }
        ensures bytes { WritesBytes (Some self.old.written) (Some self.new.written) result
            bytes.now }
        ensures finished { self.new.finished ≡ false }
        ensures cause { HasSinkCause 0 0 result }

        // It never fails. How many bytes it appends, and what stays.
        ensures sure { result ≢ Err SinkFault.Failed }
        ensures piece { IfOk result (λ n. n ≤ self.old.piece) }
        ensures count { IfOk result (λ n. n ≡ min (length bytes.now) self.old.piece) }
        ensures same_piece { self.new.piece ≡ self.old.piece }
    {
        self.finished = false;
        let count = bytes.len().min(self.piece);
        self.bytes.extend_from_slice(&bytes[..count])?;
        Ok(count)
    }

    fn finish(&mut self) -> Result<(), Failed>
        ensures bytes { Stays (Some self.old.written) (Some self.new.written) }
        ensures finished { self.new.finished ≡ is_ok result }
        ensures cause { HasCause 0 0 result }

        // It never fails. What it leaves.
        ensures sure { IsOk result }
        ensures same_piece { self.new.piece ≡ self.old.piece }
    {
        self.finished = true;
        Ok(())
    }
}
