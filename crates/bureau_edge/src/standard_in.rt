//! Standard input.
ghost use Rattle.std.specs.Prelude.{◌≡◌, OnOk, OnErr};
ghost use Rattle.std.specs.Io.{ReadsAtMost};
ghost use Rattle.std.specs.Io.KnownBytes.{ReadConsumes};
ghost use Rattle.fault_count.specs.Counts.{IsCounted, next_count};

use crate::failed::Failed;
use crate::interrupts::read_again;
use crate::source::Source;
use fault_count::next_count;
use std::io::{Input, Read};
use std::marker::Model;

/// Standard input, by the reader `I` of the runtime. It tells the bytes that the reader tells: the
/// system's own tells none. Contracts see the reader and the faults so far.
#[derive(Drop)]
pub struct StandardIn<I> {
    reader: I,
    faults: u64,
}

impl<I> Model for StandardIn<I> {
    ghost use Rattle.bureau_edge.specs.Standard.{StandardState};

    ghost Value = { StandardState I };

    ghost view = { λ s. record { device = s.reader; faults = s.faults } };
}

impl<I: Read> StandardIn<I> {
    /// The runtime's standard input.
    pub fn new<R: Input<Reader = I>>(rt: &R) -> StandardIn<I>
        ensures { result.faults ≡ 0 }
    {
        StandardIn::over(rt.reader())
    }

    /// The input by a reader, as that of the runtime or one in memory.
    pub fn over(reader: I) -> StandardIn<I>
        ensures { result ≡ record { device = reader; faults = 0 } }
    {
        StandardIn { reader, faults: 0 }
    }
}

impl<I: Read> Source for StandardIn<I> {
    ghost left = { λ s. I.remaining s.device };

    ghost faults = { λ s. s.faults };

    /// Reads from the reader, again where a signal interrupts it. An error of the reader is a fault,
    /// and so are 64 interruptions in a row.
    fn read(&mut self, into: &mut [u8]) -> Result<usize, Failed>
        ensures bound { ReadsAtMost result into.new }
        ensures bytes { ReadConsumes (I.remaining self.old.device) (I.remaining self.new.device) result into.new }
        ensures cause { IsCounted self.old.faults self.new.faults result }

        // An error counts one fault, and nothing else does.
        ensures ok { OnOk result (self.new.faults ≡ self.old.faults) }
        ensures err { OnErr result (self.new.faults ≡ next_count self.old.faults) }
    {
        match read_again(&mut self.reader, into) {
            Ok(count) => Ok(count),
            Err(_) => {
                self.faults = next_count(self.faults);
                Err(Failed)
            }
        }
    }
}
