//! Requests as text.
//!
//! A line is `FENCE`, which ends a batch, or a request: a lane from 1 to `MOST_LANES`, a pool, a verb and its fields,
//! with single spaces between them. A pool is `@` and its name; MAIN is never named, and is the pool of each line that
//! names none. A line ends at a line feed, or at a carriage return and a line feed; the last line may end with the input.
//! A batch may be empty, and an input with no fence is one.
//!
//! - A text has one reading, or is refused with the number of its first bad line and the first cause in the order of
//!   `LineCause` that applies to it.
//! - What is written of batches is read back as these batches.
#![tactic(auto)]

ghost use Rattle.request_text.specs.Grammar.{ReadBackLaw};

mod error;
mod fields;
mod reading;
mod request;
mod verb;
mod writing;

pub use claim_history::{
    Day, Entry, PoolEntry, Position, Reply, Why, days_are_civil_dates, main_pool_name, write_act,
};
pub use error::{LineCause, RequestError};
pub use reading::read_requests;
pub use request::{Batch, Request};
pub use writing::{write_pool, write_request};

/// What is written of batches is read back as these batches, and as no others. A law, which does nothing when it is
/// called.
pub fn written_requests_are_read_back()
    ensures law { ReadBackLaw }
{}
