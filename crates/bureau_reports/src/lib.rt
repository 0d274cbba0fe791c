//! Reports: what is told of an input or of a journal that stays as it is.
//!
//! A report on an input is the verdict on a statement, the chains that explain it, or the lines that file invoices. A report on a
//! journal tells whether it is sound, or prints a digest of its records; or prints a table: of the pools, or of one pool the positions,
//! the open claims, the register of a firm or a weighted set-off; or the entries that it holds, all or those behind its first acts, with
//! their statements; or the statement of a round, its pages for each party, or the statement that a Close would publish now. For each
//! there is a definition in `specs/` that says which status and which text are due; the sink takes that text, or some first bytes of it
//! where it failed, and then the status is 4. No report writes to a disk.
//!
//! A table is made whole before it is printed; the register of a firm is written while the journal is replayed. A history is printed
//! entry by entry, so that it takes no memory for its text; where memory is missing on the way, that is told behind what was printed.
#![tactic(auto)]

mod account;
mod check;
mod explain;
mod import;
mod input;
mod journal;
mod sound_line;
mod statement;

pub use input::report_input;
pub use journal::report_journal;
pub use journal_texts::{Ended, tell_refused, tell_unread};
pub use weighed_round::ExitStatus;
