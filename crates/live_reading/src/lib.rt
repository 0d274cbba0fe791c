//! The reading half of a live batch.
//!
//! The reader of a segment reads lines of an input that is still coming, and hands each to its lane by a *ring* of 64 places. It ends
//! where the batch ends, where a lane was handed 63 lines, or where the lanes are to serve before more is read: then each ring gets a
//! *mark*. `HasReadSegment` says what was read and what each lane was handed of it, and `Stop` why a batch ended otherwise than by a
//! FENCE. How the lanes serve what they are handed is said in `live_intake`.
#![tactic(auto)]

mod alone;
mod handed;
mod passing;
mod reading;
mod rings;
mod stop;

pub use alone::steps_alone;
pub use handed::{Handed, InSegments, MOST_HANDED};
pub use input_front::{Intake, Source};
pub use passing::pass_over;
pub use reading::{MOST_ASKED, read_segment};
pub use rings::Ring;
pub use served_lines::Act;
pub use stop::Stop;
