//! Statements of a cut and its outcome as text.
//!
//! A statement is a `ROUND` line, a `PARTY` line for each party, a `CLAIM` line for each claim, in the order of the
//! cut, and `END`. A party has its window and its price, a claim its amount and its discharge, and the firms of a claim
//! are named.
//!
//! - What is written of a cut and an outcome is a statement of them, and a statement has one cut and one outcome.
//! - A text that is no statement is refused with the number of a line: the first up to which no statement begins like
//!   the text, or one past the last.
//! - The cause that is told is the first in the order of `StatementCause` that applies to this line.
//!
//! A weighted set-off is written in the same lines, with a head of its own, the weight of each claim, and the total.
#![tactic(auto)]

ghost use Rattle.statement_text.specs.Statements.{OneReadingLaw, WrittenLaw};

mod draft;
mod error;
mod fields;
mod line;
mod reading;
mod weighed;
mod writing;

pub use error::{StatementCause, StatementError};
pub use reading::read_statement;
pub use weighed::{write_total, write_weighed_claim, write_weighed_head};
pub use writing::{write_claim, write_end, write_head, write_party};

/// What the writers write of a cut and an outcome, line by line, is a statement of them, and a statement has one cut
/// and one outcome: so it is read back to the same values. A law, which does nothing when it is called.
pub fn each_statement_has_one_reading()
    ensures reading { OneReadingLaw }
    ensures written { WrittenLaw }
{}
