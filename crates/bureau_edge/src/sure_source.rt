//! A source that never fails.
ghost use Rattle.std.specs.Prelude.{◌≡◌, length, min, take, drop};
ghost use Rattle.std.specs.Io.{ReadsAtMost};
ghost use Rattle.std.specs.Io.KnownBytes.{ReadConsumes};
ghost use Rattle.fault_count.specs.Counts.{IsCounted};

use crate::failed::Failed;
use crate::source::Source;
use std::marker::Model;

/// Bytes in memory that are read without a fault. Contracts see the bytes that are left.
#[derive(Drop)]
pub struct SureSource {
    bytes: Vec<u8>,
    at: usize,
}

impl Model for SureSource {
    ghost use Rattle.std.specs.Prelude.{ℕ, List, drop, ◌≤◌, vec_len};

    ghost Value = { List ℕ };

    ghost view = { λ s. drop s.at s.bytes.items };

    ghost invariant = { λ s. s.at ≤ vec_len s.bytes };
}

impl SureSource {
    /// A source of these bytes.
    pub fn new(bytes: Vec<u8>) -> SureSource
        ensures { result ≡ bytes.items }
    {
        SureSource { bytes, at: 0 }
    }
}

impl Source for SureSource {
    ghost use Rattle.std.specs.Prelude.{Some};

    ghost left = { λ s. Some s };

    ghost faults = { λ _. 0 };

    /// Moves as many bytes as are left and as the buffer has room for.
    fn read(&mut self, into: &mut [u8]) -> Result<usize, Failed>
        // It reads from the front of what is left.
        ensures bound { ReadsAtMost result into.new }
        ensures bytes { ReadConsumes (Some self.old) (Some self.new) result into.new }
        ensures cause { IsCounted 0 0 result }

        // It reads as much as there is room for, and never fails.
        ensures sure { result ≡ Ok (min (length self.old) (length into.old)) }
        ensures rest { self.new ≡ drop (length into.old) self.old }
    {
        let (_, rest) = self.bytes.split_at(self.at);
        let count = copy_front(rest, into);
        self.at += count;
        Ok(count)
    }
}

// Copies as many bytes as there are and as there is room for.
fn copy_front(from: &[u8], into: &mut [u8]) -> usize
    ensures count { result ≡ min (length from.now) (length into.old) }
    ensures front { take result into.new ≡ take result from.now }
{
    let count = from.len().min(into.len());
    into[..count].copy_from_slice(&from[..count]);
    count
}
