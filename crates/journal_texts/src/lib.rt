//! What the journal of a disk holds, and what is told of a disk on which no desk was opened, or of an input that was not read.
//!
//! A journal is sound where its bytes stand for records that a desk takes. Behind these there is room for the requests of an input
//! within a bound of entries and bytes. A disk whose bytes are no such journal, or that failed, is told by one fault line and its
//! status.
#![tactic(auto)]

mod ended;
mod fault_line;
mod reading;
mod refused;

pub use bureau_desk::{
    Desk, DeskCause, DeskRefused, LimitedBooks, Record, ReplayStop, records_of, replay_cause,
    replay_next,
};
pub use ended::Ended;
pub use fault_line::{status_of_opening, write_opening_fault, write_told};
pub use reading::tell_unread;
pub use refused::tell_refused;
