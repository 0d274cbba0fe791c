//! Standard output.
ghost use Rattle.std.specs.Prelude.{◌≡◌, ◌<◌, ◌≤◌, None, length, take, IfOk, IfSome, OnOk, OnErr};
ghost use Rattle.std.specs.Io.KnownBytes.{Appends, WriteAppends};
ghost use Rattle.fault_count.specs.Counts.{next_count};
ghost use Rattle.bureau_edge.specs.Streams.{CountsFaults};

use crate::failed::Failed;
use crate::interrupts::{flush_again, write_again};
use crate::sink::Sink;
use fault_count::next_count;
use std::io::{self, Print, Printer, Write};
use std::marker::Model;

/// Standard output, by a writer `W`. It tells no bytes: where a flush fails, what became of them is
/// not known. Contracts see the writer and the faults so far.
#[derive(Drop)]
pub struct StandardOut<W> {
    writer: W,
    faults: u64,
}

impl<W> Model for StandardOut<W> {
    ghost use Rattle.bureau_edge.specs.Standard.{StandardState};

    ghost Value = { StandardState W };

    ghost view = { λ s. record { device = s.writer; faults = s.faults } };
}

impl<'a, R: Print> StandardOut<Printer<'a, R>> {
    /// The runtime's standard output.
    pub fn new(rt: &'a R) -> StandardOut<Printer<'a, R>>
        ensures { result.faults ≡ 0 }
    {
        StandardOut::over(io::writer(rt))
    }
}

impl<W> StandardOut<W> {
    /// The output by a writer, as that of the runtime or one in memory.
    pub fn over(writer: W) -> StandardOut<W>
        ensures { result ≡ record { device = writer; faults = 0 } }
    {
        StandardOut { writer, faults: 0 }
    }
}

impl<W: Write> Sink for StandardOut<W> {
    ghost held = { λ _. None };

    ghost faults = { λ s. s.faults };

    /// Writes to the writer and flushes it, each again where a signal interrupts it. An error of
    /// either is a fault, and so are 64 interruptions in a row, and a writer that takes nothing.
    fn write(&mut self, piece: &[u8]) -> Result<usize, Failed>
        requires { 0 < length piece.now }

        // It takes the front of the piece, or counts a fault.
        ensures some { IfOk result (λ count. 0 < count) }
        ensures bound { IfOk result (λ count. count ≤ length piece.now) }
        ensures bytes { WriteAppends None None result piece.now }
        ensures cause { CountsFaults self.old.faults self.new.faults result }

        // What the writer takes, and how the faults are counted.
        ensures ok { OnOk result (self.new.faults ≡ self.old.faults) }
        ensures taken { IfOk result (λ count. Appends (W.contents self.old.device) (W.contents self.new.device) (take count piece.now)) }
        ensures err { OnErr result (self.new.faults ≡ next_count self.old.faults) }
    {
        match write_through(&mut self.writer, piece) {
            Some(count) => Ok(count),
            None => {
                self.faults = next_count(self.faults);
                Err(Failed)
            }
        }
    }
}

// Writes some bytes of a piece and flushes them.
fn write_through<W: Write>(writer: &mut W, piece: &[u8]) -> Option<usize>
    ensures some { IfSome result (λ count. 0 < count) }
    ensures bound { IfSome result (λ count. count ≤ length piece.now) }
    ensures bytes { IfSome result (λ count. Appends (W.contents writer.old) (W.contents writer.new) (take count piece.now)) }
{
    let count = write_again(writer, piece).ok()?;
    flush_again(writer).ok()?;
    if count == 0 { None } else { Some(count) }
}
