ghost use Rattle.std.specs.Prelude.{◌≡◌, ◌≤◌, ◌↔◌, Some, IfOk, IsErr, Contains, length, min};
ghost use Rattle.std.specs.Io.{ReadsAtMost};
ghost use Rattle.run_ends.specs.Counts.{next_count, faults_after};
ghost use Rattle.run_ends.specs.Ends.{ReadsBytes, Taken, HasCause};

use crate::counting::count_up;
use crate::give::give;
use crate::{Failed, Source};
use simplex::Memory;
use std::alloc::Global;
use std::marker::Model;

/// A source over bytes in memory, which fails at the calls that it is told.
#[derive(Drop)]
pub struct MemSource {
    bytes: Vec<u8>,
    at: usize,
    piece: usize,
    fails: Vec<u64>,
    calls: u64,
    faults: u64,
}

impl Model for MemSource {
    ghost use Rattle.std.specs.Prelude.{◌≤◌, drop, vec_len};
    ghost use Rattle.run_ends.specs.Memory.{MemSourceState};

    ghost Value = { MemSourceState };

    ghost view = { λ s. record {
      left = drop s.at s.bytes.items;
      taken = s.at;
      faults = s.faults;
      calls = s.calls;
      piece = s.piece;
      fails = s.fails.items;
    } };

    ghost invariant = { λ s. (s.at ≤ vec_len s.bytes) × (1 ≤ s.piece) };
}

impl MemSource {
    /// A call gives at most `piece` bytes. Calls are numbered from 0, and the number stops at the
    /// last value of a u64. Exactly the calls whose numbers stand in `fails` fail.
    pub fn new(
        alloc: Global,
        bytes: &[u8],
        piece: usize,
        fails: &[u64],
    ) -> Result<MemSource, Memory>
        requires some { 1 ≤ piece }
        ensures start { IfOk result (λ s. s ≡ record {
          left = bytes.now;
          taken = 0;
          faults = 0;
          calls = 0;
          piece = piece;
          fails = fails.now;
        }) }
    {
        Ok(MemSource {
            bytes: Vec::from_slice(alloc, bytes)?,
            at: 0,
            piece,
            fails: Vec::from_slice(alloc, fails)?,
            calls: 0,
            faults: 0,
        })
    }
}

impl Source for MemSource {
    ghost left = { λ s. Some s.left };

    ghost taken = { λ s. s.taken };

    ghost faults = { λ s. s.faults };

    fn read(&mut self, buf: &mut [u8]) -> Result<usize, Failed>
        ensures bound { ReadsAtMost result buf.new }
        ensures bytes { ReadsBytes (Some self.old.left) (Some self.new.left) result buf.new }
        ensures taken { Taken self.old.taken self.new.taken result }
        ensures cause { HasCause self.old.faults self.new.faults result }

        // When a call fails, and how many bytes it gives else.
        ensures fails { IsErr result ↔ Contains self.old.fails self.old.calls }
        ensures piece { IfOk result (λ n. n ≤ self.old.piece) }
        ensures count { IfOk result (λ n.
            n ≡ min (min (length buf.new) self.old.piece) (length self.old.left)) }

        // The two counts, and what stays.
        ensures faults { self.new.faults ≡ faults_after result self.old.faults }
        ensures calls { self.new.calls ≡ next_count self.old.calls }
        ensures same_piece { self.new.piece ≡ self.old.piece }
        ensures same_fails { self.new.fails ≡ self.old.fails }
    {
        let fails = self.fails.contains(&self.calls);
        self.calls = count_up(self.calls);
        if fails {
            self.faults = count_up(self.faults);
            return Err(Failed);
        }
        let count = give(&self.bytes, self.at, self.piece, buf);
        self.at += count;
        Ok(count)
    }
}
