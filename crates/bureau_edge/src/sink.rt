//! A sink of bytes.
ghost use Rattle.std.specs.Prelude.{ℕ, ◌<◌, ◌≤◌, List, length, IfOk, OnOk, OnErr};
ghost use Rattle.std.specs.declared.option.Option.{Option};
ghost use Rattle.std.specs.Io.KnownBytes.{Appends, WriteAppends};
ghost use Rattle.bureau_edge.specs.Streams.{AppendsPart, CountsFaults};

use crate::failed::Failed;

/// A sink of bytes, which counts its faults, and nothing else.
pub trait Sink {
    /// The bytes that it has taken, where it tells them.
    ghost held: { Self → Option (List ℕ) };

    /// How many faults it has had. The count rises where a call fails, and only there, and stops at the last `u64`.
    ghost faults: { Self → ℕ };

    /// Takes at least one byte from the front of a piece, and answers how many. Where it fails it
    /// has taken none, if it tells what it holds, and has counted a fault. Else it has counted none.
    fn write(&mut self, piece: &[u8]) -> Result<usize, Failed>
        requires { 0 < length piece.now }

        // It takes the front of the piece, or counts a fault.
        ensures some { IfOk result (λ count. 0 < count) }
        ensures bound { IfOk result (λ count. count ≤ length piece.now) }
        ensures bytes { WriteAppends (held self.old) (held self.new) result piece.now }
        ensures cause { CountsFaults (faults self.old) (faults self.new) result };
}

/// Writes the whole piece, in as many calls as the sink needs. Where one fails, some first bytes of
/// the piece may have been taken, and no more is tried. The count of faults is kept where all was taken.
pub fn write_all<K: Sink>(sink: &mut K, piece: &[u8]) -> Result<(), Failed>
    ensures ok { OnOk result (Appends (K.held sink.old) (K.held sink.new) piece.now) }
    ensures err { OnErr result (AppendsPart (K.held sink.old) (K.held sink.new) piece.now) }
    ensures cause { CountsFaults (K.faults sink.old) (K.faults sink.new) result }
{
    let mut rest = piece;
    while !rest.is_empty() {
        let count = sink.write(rest)?;
        let (_, after) = rest.split_at(count);
        rest = after;
    }
    Ok(())
}
