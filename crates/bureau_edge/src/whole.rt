//! Reading a source to its end.
ghost use Rattle.std.specs.Prelude.{◌≡◌, ◌≤◌, IfOk, IfErr};
ghost use Rattle.fault_count.specs.Counts.{HasRisen};
ghost use Rattle.bureau_edge.specs.Streams.{EndsReading, TakesAll};

use crate::failed::Failed;
use crate::source::Source;
use std::alloc::{AllocError, Global};

/// Why a source was not read whole. The bytes that were taken from it are lost.
#[derive(Clone, Copy, PartialEq, Eq)]
pub enum ReadEnd {
    /// There was no memory for the bytes.
    Memory,
    /// The source failed, and counted it.
    Failed,
    /// The source had more bytes than the limit, and one more than the limit was taken.
    TooLong,
}

impl From<AllocError> for ReadEnd {
    ghost use Rattle.std.specs.Prelude.{◌≡◌};
    ghost use Rattle.bureau_edge.specs.declared.whole.ReadEnd.TheVariants.{Memory};

    ghost from_gives = { λ _ e. e ≡ Memory };

    fn from(_e: AllocError) -> ReadEnd {
        ReadEnd::Memory
    }
}

impl From<Failed> for ReadEnd {
    ghost use Rattle.std.specs.Prelude.{◌≡◌};
    ghost use Rattle.bureau_edge.specs.declared.whole.ReadEnd.TheVariants as ends;

    ghost from_gives = { λ _ e. e ≡ ends.Failed };

    fn from(_e: Failed) -> ReadEnd {
        ReadEnd::Failed
    }
}

/// All bytes that a source has left, at most `limit` of them. It reads until the source answers
/// that it is at its end. `TooLong` comes exactly where `limit + 1` bytes were taken, and with each
/// other answer at most `limit` were. `Failed` comes only where the source counted a fault. `Memory` means out of memory.
pub fn read_whole<S: Source>(alloc: Global, source: &mut S, limit: u64) -> Result<Vec<u8>, ReadEnd>
    ensures all { IfOk result (λ v. TakesAll limit (S.left source.old) (S.left source.new) v.items) }
    ensures end { IfErr result (EndsReading limit (S.left source.old) (S.left source.new)) }
    ensures later { S.faults source.old ≤ S.faults source.new }
    ensures failed { IfErr result (λ e. e ≡ ReadEnd.Failed → HasRisen (S.faults source.old) (S.faults source.new)) }
{
    let mut bytes = Vec::new(alloc);
    let mut piece = [0; 4096];
    loop {
        let room = limit - bytes.len() as u64;
        let ask = room.min(4095) as usize + 1;
        let count = source.read(&mut piece[..ask])?;
        if count == 0 {
            return Ok(bytes);
        }
        if count as u64 > room {
            return Err(ReadEnd::TooLong);
        }
        bytes.extend_from_slice(&piece[..count])?;
    }
}
