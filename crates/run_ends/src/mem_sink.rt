ghost use Rattle.std.specs.Prelude.{◌≡◌, ◌≤◌, ◌↔◌, [], Some, false, IfOk, IsErr, IsErrOf, IsTrue, Contains, length, min, is_ok, if◌then◌else◌};
ghost use Rattle.run_ends.specs.Counts.{next_count, faults_after, sink_faults_after, Rose};
ghost use Rattle.run_ends.specs.Ends.{WritesBytes, Writes, Stays, HasCause, HasSinkCause};

use crate::counting::count_up;
use crate::{Failed, Sink, SinkFault};
use simplex::Memory;
use std::alloc::Global;
use std::marker::Model;

/// A sink in memory, which fails at the calls that it is told. It grows as it is written.
#[derive(Drop)]
pub struct MemSink {
    bytes: Vec<u8>,
    finished: bool,
    piece: usize,
    fails: Vec<u64>,
    calls: u64,
    faults: u64,
}

impl Model for MemSink {
    ghost use Rattle.std.specs.Prelude.{◌≤◌};
    ghost use Rattle.run_ends.specs.Memory.{MemSinkState};

    ghost Value = { MemSinkState };

    ghost view = { λ s. record {
      written = s.bytes.items;
      finished = s.finished;
      faults = s.faults;
      calls = s.calls;
      piece = s.piece;
      fails = s.fails.items;
    } };

    ghost invariant = { λ s. 1 ≤ s.piece };
}

impl MemSink {
    /// A write appends at most `piece` bytes. Writes and finishes are numbered together from 0, and
    /// the number stops at the last value of a u64. Exactly the calls whose numbers stand in
    /// `fails` fail.
    pub fn new(alloc: Global, piece: usize, fails: &[u64]) -> Result<MemSink, Memory>
        requires some { 1 ≤ piece }
        ensures start { IfOk result (λ s. s ≡ record {
          written = [];
          finished = false;
          faults = 0;
          calls = 0;
          piece = piece;
          fails = fails.now;
        }) }
    {
        Ok(MemSink {
            bytes: Vec::new(alloc),
            finished: false,
            piece,
            fails: Vec::from_slice(alloc, fails)?,
            calls: 0,
            faults: 0,
        })
    }

    /// The bytes written so far.
    pub fn written(&self) -> &[u8]
        ensures bytes { result.now ≡ self.now.written }
    {
        self.bytes.as_slice()
    }

    // Counts a call, and says whether it is one that fails, which it then counts as a fault.
    fn is_failing(&mut self) -> bool
        ensures value { IsTrue result ↔ Contains self.old.fails self.old.calls }
        ensures calls { self.new.calls ≡ next_count self.old.calls }
        ensures faults { self.new.faults ≡ (if result then next_count self.old.faults
            else self.old.faults) }
        ensures later { self.old.faults ≤ self.new.faults }
        ensures rose { IsTrue result → Rose self.old.faults self.new.faults }
        ensures finished { self.new.finished ≡ false }
        ensures same_written { self.new.written ≡ self.old.written }
        ensures same_piece { self.new.piece ≡ self.old.piece }
        ensures same_fails { self.new.fails ≡ self.old.fails }
    {
        let fails = self.fails.contains(&self.calls);
        self.finished = false;
        self.calls = count_up(self.calls);
        if fails {
            self.faults = count_up(self.faults);
        }
        fails
    }
}

impl Sink for MemSink {
    ghost written = { λ s. Some s.written };

    ghost finished = { λ s. s.finished };

    ghost faults = { λ s. s.faults };

    fn write(&mut self, bytes: &[u8]) -> Result<usize, SinkFault>
        ensures bound { Writes result bytes.now }
        ensures bytes { WritesBytes (Some self.old.written) (Some self.new.written) result
            bytes.now }
        ensures finished { self.new.finished ≡ false }
        ensures cause { HasSinkCause self.old.faults self.new.faults result }

        // When a call fails, and how many bytes it appends else.
        ensures fails { IsErrOf result SinkFault.Failed ↔ Contains self.old.fails self.old.calls }
        ensures piece { IfOk result (λ n. n ≤ self.old.piece) }
        ensures count { IfOk result (λ n. n ≡ min (length bytes.now) self.old.piece) }

        // The two counts, and what stays.
        ensures faults { self.new.faults ≡ sink_faults_after result self.old.faults }
        ensures calls { self.new.calls ≡ next_count self.old.calls }
        ensures same_piece { self.new.piece ≡ self.old.piece }
        ensures same_fails { self.new.fails ≡ self.old.fails }
    {
        if self.is_failing() {
            return Err(SinkFault::Failed);
        }
        let count = bytes.len().min(self.piece);
        self.bytes.extend_from_slice(&bytes[..count])?;
        Ok(count)
    }

    fn finish(&mut self) -> Result<(), Failed>
        ensures bytes { Stays (Some self.old.written) (Some self.new.written) }
        ensures finished { self.new.finished ≡ is_ok result }
        ensures cause { HasCause self.old.faults self.new.faults result }

        // When a call fails, the two counts, and what stays.
        ensures fails { IsErr result ↔ Contains self.old.fails self.old.calls }
        ensures faults { self.new.faults ≡ faults_after result self.old.faults }
        ensures calls { self.new.calls ≡ next_count self.old.calls }
        ensures same_piece { self.new.piece ≡ self.old.piece }
        ensures same_fails { self.new.fails ≡ self.old.fails }
    {
        if self.is_failing() {
            return Err(Failed);
        }
        self.finished = true;
        Ok(())
    }
}
