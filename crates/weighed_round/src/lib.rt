//! What would be discharged: in the round that a Close would publish now, and if claims that are longer overdue counted more.
//!
//! A forecast is the statement of the cut that a Close would open now, with a greatest set-off of it and prices that prove it. A round
//! that is open is taken as ended.
//!
//! The claims of a book that are due by a day make a cut, as for a round. Each has a weight, by the days that it is overdue: 1, and one
//! more for each 30 days, at most 9. A set-off of the cut whose weighted total is greatest is written line by line, with prices that
//! prove it. Nothing of the book changes.
#![tactic(auto)]

mod forecast;
mod text;
mod weighing;
mod weights;

pub use forecast::print_forecast;
pub use printed_text::{
    Books, ExitStatus, ImportError, RowCause, StatementCause, StatementError, end_with, import,
    notices, output_buffer, positions, read_statement, status_of_verdict, tell_no_memory,
    write_bad_row, write_bad_statement, write_reply, write_verdict,
};
pub use weighing::weigh;
