//! What the printed text of entries fixes.
//!
//! The line of an entry shows the caller, the pool, the act and the reply; of a publication not the outcome, but the number of its
//! round. No line is that of two entries that differ in what it shows. The statement behind the line of an accepted publication shows
//! the outcome, where the cut is known, and the entries before it say which cut it is. So the text of batches has one reading.
#![tactic(auto)]

mod laws;

pub use laws::{each_entry_line_has_one_reading, printed_batches_have_one_reading};
