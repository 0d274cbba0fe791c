//! A sink in memory that fails where it is told to.
ghost use Rattle.std.specs.Prelude.{◌≡◌, ◌<◌, ◌≤◌, [], length, true, IfOk, IsErr, OnErr, OnOk};
ghost use Rattle.std.specs.Io.KnownBytes.{WriteAppends};
ghost use Rattle.bureau_edge.specs.Streams.{CountsFaults};
ghost use Rattle.bureau_edge.specs.Calls.{is_to_fail};
ghost use Rattle.bureau_edge.specs.BytesSink.{after_write, after_failed_write};

use crate::failed::Failed;
use crate::sink::Sink;
use fault_count::next_count;
use std::alloc::Global;
use std::marker::Model;

/// Takes bytes into memory, with faults at chosen calls. Contracts see the bytes that it holds, the
/// calls, the faults and the refused growths so far, and the numbers of the calls that fail.
#[derive(Drop)]
pub struct BytesSink {
    bytes: Vec<u8>,
    fails: Vec<u64>,
    calls: u64,
    faults: u64,
    refused: u64,
}

impl Model for BytesSink {
    ghost use Rattle.bureau_edge.specs.BytesSink.{SinkState};

    ghost Value = { SinkState };

    ghost view = { λ s. record { held = s.bytes.items; fails = s.fails.items; calls = s.calls; faults = s.faults; refused = s.refused } };
}

impl BytesSink {
    /// An empty sink, whose calls with the numbers in `fails` fail. The first call has the number 1.
    /// The count of the calls stops at the last `u64`.
    pub fn new(alloc: Global, fails: Vec<u64>) -> BytesSink
        ensures { result ≡ record { held = []; fails = fails.items; calls = 0; faults = 0; refused = 0 } }
    {
        BytesSink {
            bytes: Vec::new(alloc),
            fails,
            calls: 0,
            faults: 0,
            refused: 0,
        }
    }

    /// The bytes that it has taken.
    pub fn bytes(&self) -> &[u8]
        ensures { result.now ≡ self.now.held }
    {
        &self.bytes
    }

    /// How many calls failed because memory ran out. The count stops at the last `u64`.
    pub fn refused(&self) -> u64
        ensures { result ≡ self.now.refused }
    {
        self.refused
    }
}

impl Sink for BytesSink {
    ghost use Rattle.std.specs.Prelude.{Some};

    ghost held = { λ s. Some s.held };

    ghost faults = { λ s. s.faults };

    /// Takes the whole piece. It fails exactly at the calls that were named, and where there is no
    /// memory for the piece.
    fn write(&mut self, piece: &[u8]) -> Result<usize, Failed>
        requires { 0 < length piece.now }

        // It takes the front of the piece, or counts a fault.
        ensures some { IfOk result (λ count. 0 < count) }
        ensures bound { IfOk result (λ count. count ≤ length piece.now) }
        ensures bytes { WriteAppends (Some self.old.held) (Some self.new.held) result piece.now }
        ensures cause { CountsFaults self.old.faults self.new.faults result }

        // It takes the whole piece or none, and fails at the calls that were named.
        ensures whole { IfOk result (λ count. count ≡ length piece.now) }
        ensures ok { OnOk result (self.new ≡ after_write piece.now self.old) }
        ensures named { is_to_fail self.old.fails self.old.calls ≡ true → IsErr result }
        ensures err { OnErr result (self.new ≡ after_failed_write self.old) }
    {
        self.calls = next_count(self.calls);
        if self.fails.contains(&self.calls) {
            self.faults = next_count(self.faults);
            return Err(Failed);
        }
        match self.bytes.extend_from_slice(piece) {
            Ok(()) => Ok(piece.len()),
            Err(_) => {
                self.refused = next_count(self.refused);
                self.faults = next_count(self.faults);
                Err(Failed)
            }
        }
    }
}
