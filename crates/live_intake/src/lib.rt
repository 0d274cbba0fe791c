//! Lines that are handed to their lanes while the input is still read.
//!
//! A batch is read in *segments*. The reader of a segment reads lines, in this thread, and hands each to its lane by a ring of 64
//! places. Then the lanes serve theirs, in this thread, or side by side where a round is closed. Where more lines may come while one
//! is, the lanes serve while the reader reads, in threads of their own, and sleep until they are handed something. A segment ends
//! where the batch ends, where a lane was handed 63 lines, or where the lanes are to serve before more is read: then each ring gets a
//! mark. After the join both ends of each ring are in one place, where all that was sent is known to have been received. `run_live`
//! serves one batch, and `HasRunLive` says which, and why it ended.
#![tactic(auto)]

mod fork;
mod lane;
mod live;
mod meeting;
mod room;
mod segment;
mod segments;

pub use lane_runner::{
    Answer, BatchEnd, CloseEnd, CutReply, Desk, Gate, LineEnd, Pause, PublishReply, Shared,
    certified, run_batch,
};
pub use live::{LiveEnd, run_live};
pub use live_reading::{Intake, Stop};
