//! What a lane is handed.

use rtrb::Protocol;
use served_lines::Act;
use setoff_model::Name;

/// How many lines a lane is handed in one segment, at most. Its ring has one place more, for the mark at the end.
pub const MOST_HANDED: usize = 63;

/// What goes through the ring of a lane.
#[derive(Drop)]
pub enum Handed {
    /// A line of the input, which asks this of the lane in a pool.
    Line { line: u64, pool: Name, act: Act },
    /// The end of a segment.
    End,
}

/// What a ring takes next: an act that a line can ask for, of at most `MOST_HANDED` lines in a segment, or the end of a segment.
#[derive(Clone, Copy)]
pub struct InSegments;

impl Protocol<Handed> for InSegments {
    ghost use Rattle.live_reading.specs.Handing.{MayHand};

    ghost allows = { MayHand };
}
