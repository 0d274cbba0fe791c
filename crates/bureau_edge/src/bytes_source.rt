//! A source in memory that fails where it is told to.
ghost use Rattle.std.specs.Prelude.{◌≡◌, ◌↔◌, true, length, min, IfOk, IsErr, OnErr};
ghost use Rattle.std.specs.Io.{ReadsAtMost};
ghost use Rattle.std.specs.Io.KnownBytes.{ReadConsumes};
ghost use Rattle.fault_count.specs.Counts.{IsCounted};
ghost use Rattle.bureau_edge.specs.Calls.{is_to_fail};
ghost use Rattle.bureau_edge.specs.BytesSource.{after_read, after_failed_read};

use crate::failed::Failed;
use crate::source::Source;
use crate::sure_source::SureSource;
use fault_count::next_count;
use std::marker::Model;

/// Bytes in memory that are read with faults at chosen calls. Contracts see the bytes that are
/// left, the calls and the faults so far, and the numbers of the calls that fail.
#[derive(Drop)]
pub struct BytesSource {
    source: SureSource,
    fails: Vec<u64>,
    calls: u64,
    faults: u64,
}

impl Model for BytesSource {
    ghost use Rattle.bureau_edge.specs.BytesSource.{SourceState};

    ghost Value = { SourceState };

    ghost view = { λ s. record { left = s.source; fails = s.fails.items; calls = s.calls; faults = s.faults } };
}

impl BytesSource {
    /// A source of these bytes, whose calls with the numbers in `fails` fail. The first call has
    /// the number 1. The count of the calls stops at the last `u64`.
    pub fn new(bytes: Vec<u8>, fails: Vec<u64>) -> BytesSource
        ensures { result ≡ record { left = bytes.items; fails = fails.items; calls = 0; faults = 0 } }
    {
        BytesSource {
            source: SureSource::new(bytes),
            fails,
            calls: 0,
            faults: 0,
        }
    }
}

impl Source for BytesSource {
    ghost use Rattle.std.specs.Prelude.{Some};

    ghost left = { λ s. Some s.left };

    ghost faults = { λ s. s.faults };

    /// Moves as many bytes as are left and as the buffer has room for. It fails exactly at the
    /// calls that were named.
    fn read(&mut self, into: &mut [u8]) -> Result<usize, Failed>
        ensures bound { ReadsAtMost result into.new }
        ensures bytes { ReadConsumes (Some self.old.left) (Some self.new.left) result into.new }
        ensures cause { IsCounted self.old.faults self.new.faults result }

        // It fails exactly at the calls that were named. Else it reads all that fits.
        ensures named { IsErr result ↔ (is_to_fail self.old.fails self.old.calls ≡ true) }
        ensures taken { IfOk result (λ count. count ≡ min (length self.old.left) (length into.old)) }
        ensures ok { IfOk result (λ count. self.new ≡ after_read count self.old) }
        ensures err { OnErr result (self.new ≡ after_failed_read self.old) }
    {
        self.calls = next_count(self.calls);
        if self.fails.contains(&self.calls) {
            self.faults = next_count(self.faults);
            return Err(Failed);
        }
        self.source.read(into)
    }
}
