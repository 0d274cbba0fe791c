//! Serves the lines of an input by a load, a group at a time.
//!
//! A group is the lines of one batch, cut after `GROUP_LINES` lines. They are answered in the order of the input, a lane being the
//! caller of its lines; then the accepted calls are kept as one group; then a witness is shown the sink and the disk; and then the
//! group's text is written: its entries in order, and a line for each of its lines that was full or for which memory was missing.
//!
//! `groups_add` says what groups add to a history, whose members are those of the lines that were replied to, each with the reply that
//! is due. A disk that fails ends the load, and so does a sink; of the group at which the disk failed nothing is told.
#![tactic(auto)]

mod answering;
mod closes;
mod limits;
mod load_break;
mod serving;
mod tally;

pub use closes::first_close;
pub use disk_witness::{SilentWitness, Witness};
pub use group_loader::{LoadStopped, Loader};
pub use limits::GROUP_LINES;
pub use load_break::LoadBreak;
pub use printed_text::{
    Answer, BatchAnswers, ExitStatus, end_with, output_buffer, print_batch, tell_no_memory,
    tell_read_fault, tell_too_long, tell_words, write_bad_line,
};
pub use serving::load_batches;
