//! Batches of an input that are served on a desk while the input is still read, each printed after it was served.
//!
//! It is `batch_runs` over `run_live` of `live_intake`: the texts, the tally and the status are the same. What is more is why the
//! reading ended, and that the batches are those of the front of what was taken of the input.
#![tactic(auto)]

mod serving;

pub use batch_runs::{
    BatchAnswers, Desk, DeskRefused, ExitStatus, Gate, Pause, SilentWitness, Unhindered, Witness,
    bytes_hold_one_list, end_with, output_buffer, print_added, run_batches, tell_no_memory,
    tell_read_fault, tell_too_long, tell_words, write_bad_line,
};
pub use live_intake::{Intake, Stop};
pub use serving::serve_input;
