//! What the program prints: the text of a batch, the line of a verdict, and the lines that tell of faults.
//!
//! The text of a batch has a line for each member that it added to the history, with its pool where this is not MAIN. At once
//! after the member that publishes a round of its pool stands the statement of that round. Then comes a line `! line N memory` or
//! `! line N full ..` for each line that was not replied to. A publication has the discharges and the prices of its round, and not
//! its cut, so the cuts of the published rounds of all pools are handed in.
//!
//! Text goes line by line through a buffer of `OUTPUT_BYTES` to the sink. Once the buffer is there, printing takes no
//! memory. What was in the buffer and the text are what the sink took and what is in the buffer now: `GoesThrough` says this
//! of a step, and steps add up. Where the sink failed, it took some first bytes of the text. `Prints` says both of a call.
//!
//! `end_with` writes the one line that ends a run, and says its `ExitStatus`, which is `Sink` where the sink failed. A fault line that has
//! no parts has a function of its own.
#![tactic(auto)]

mod batch_answers;
mod ending;
mod exit_status;
mod fault_text;
mod output;
mod statement;
mod verdict_text;

pub use batch_answers::BatchAnswers;
pub use ending::{end_with, tell_no_memory, tell_read_fault, tell_too_long, tell_words};
pub use entry_text::write_reply;
pub use exit_status::ExitStatus;
pub use fault_text::{write_bad_line, write_bad_row, write_bad_statement};
pub use firm_notices::{ImportError, RowCause, import, notices, positions};
pub use output::{flush, make_room, output_buffer, print_batch, print_member, print_publication};
pub use served_lines::{
    Answer, Book, Books, ClaimFact, Day, Full, LineEnd, build_cut,
    cut_of_a_history_is_of_its_facts, is_due, some_full, some_memory,
};
pub use statement::{print_claim, print_head, print_party, print_statement};
pub use statement_text::{
    StatementCause, StatementError, read_statement, write_end, write_party, write_total,
    write_weighed_claim, write_weighed_head,
};
pub use verdict_text::{status_of_verdict, write_verdict};
