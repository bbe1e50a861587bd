ghost use Rattle.std.specs.Prelude.{◌≡◌, ◌≤◌, Some, IfOk, IsOk, length, min};
ghost use Rattle.std.specs.Io.{ReadsAtMost};
ghost use Rattle.run_ends.specs.Ends.{ReadsBytes, Taken, HasCause};

use crate::give::give;
use crate::{Failed, Source};
use simplex::Memory;
use std::alloc::Global;
use std::marker::Model;

/// A source over bytes in memory that never fails.
#[derive(Drop)]
pub struct SureSource {
    bytes: Vec<u8>,
    at: usize,
    piece: usize,
}

impl Model for SureSource {
    ghost use Rattle.std.specs.Prelude.{◌≤◌, drop, vec_len};
    ghost use Rattle.run_ends.specs.Memory.{SureSourceState};

    ghost Value = { SureSourceState };

    ghost view = { λ s. record { left = drop s.at s.bytes.items; taken = s.at; piece = s.piece } };

    ghost invariant = { λ s. (s.at ≤ vec_len s.bytes) × (1 ≤ s.piece) };
}

impl SureSource {
    /// A call gives at most `piece` bytes.
    pub fn new(alloc: Global, bytes: &[u8], piece: usize) -> Result<SureSource, Memory>
        requires some { 1 ≤ piece }
        ensures start { IfOk result (λ s.
            s ≡ record { left = bytes.now; taken = 0; piece = piece }) }
    {
        Ok(SureSource {
            bytes: Vec::from_slice(alloc, bytes)?,
            at: 0,
            piece,
        })
    }
}

impl Source for SureSource {
    ghost left = { λ s. Some s.left };

    ghost taken = { λ s. s.taken };

    ghost faults = { λ _. 0 };

    fn read(&mut self, buf: &mut [u8]) -> Result<usize, Failed>
        ensures bound { ReadsAtMost result buf.new }
        ensures bytes { ReadsBytes (Some self.old.left) (Some self.new.left) result buf.new }
        ensures taken { Taken self.old.taken self.new.taken result }
        ensures cause { HasCause 0 0 result }

        // It never fails. How many bytes it gives, and what stays.
        ensures sure { IsOk result }
        ensures piece { IfOk result (λ n. n ≤ self.old.piece) }
        ensures count { IfOk result (λ n.
            n ≡ min (min (length buf.new) self.old.piece) (length self.old.left)) }
        ensures same_piece { self.new.piece ≡ self.old.piece }
    {
        let count = give(&self.bytes, self.at, self.piece, buf);
        self.at += count;
        Ok(count)
    }
}
