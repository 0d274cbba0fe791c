//! Lines that end a run.
ghost use Rattle.std.specs.Prelude.{◌≢◌};
ghost use Rattle.printed_text.specs.declared.exit_status.ExitStatus.TheVariants as statuses;
ghost use Rattle.printed_text.specs.Statuses.{TellsSinkFault};
ghost use Rattle.printed_text.specs.Texts.{memory_text, read_text, too_long_text, words_text};
ghost use Rattle.printed_text.specs.Writing.{IsWritten};

use crate::exit_status::ExitStatus;
use bureau_edge::{Sink, write_all};

/// Writes a line, and says the status: the given one, or `Sink` where the sink failed.
pub fn end_with<K: Sink>(sink: &mut K, status: ExitStatus, line: &[u8]) -> ExitStatus
    requires { status ≢ statuses.Sink }
    ensures written { IsWritten (K.held sink.old) (K.held sink.new) status line.now result }
    ensures failed { TellsSinkFault (K.faults sink.old) (K.faults sink.new) result }
{
    match write_all(sink, line) {
        Ok(()) => status,
        Err(_) => ExitStatus::Sink,
    }
}

/// Tells that there was no memory.
pub fn tell_no_memory<K: Sink>(sink: &mut K) -> ExitStatus
    ensures written { IsWritten (K.held sink.old) (K.held sink.new) statuses.Memory memory_text result }
    ensures failed { TellsSinkFault (K.faults sink.old) (K.faults sink.new) result }
{
    end_with(sink, ExitStatus::Memory, b"fault memory\n")
}

/// Tells that the words ask for nothing.
pub fn tell_words<K: Sink>(sink: &mut K) -> ExitStatus
    ensures written { IsWritten (K.held sink.old) (K.held sink.new) statuses.Words words_text result }
    ensures failed { TellsSinkFault (K.faults sink.old) (K.faults sink.new) result }
{
    end_with(sink, ExitStatus::Words, b"fault words\n")
}

/// Tells that the source failed.
pub fn tell_read_fault<K: Sink>(sink: &mut K) -> ExitStatus
    ensures written { IsWritten (K.held sink.old) (K.held sink.new) statuses.Source read_text result }
    ensures failed { TellsSinkFault (K.faults sink.old) (K.faults sink.new) result }
{
    end_with(sink, ExitStatus::Source, b"fault read\n")
}

/// Tells that the input is too long.
pub fn tell_too_long<K: Sink>(sink: &mut K) -> ExitStatus
    ensures written { IsWritten (K.held sink.old) (K.held sink.new) statuses.Limit too_long_text result }
    ensures failed { TellsSinkFault (K.faults sink.old) (K.faults sink.new) result }
{
    end_with(sink, ExitStatus::Limit, b"fault input too long\n")
}
