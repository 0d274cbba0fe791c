//! The commands of the program.
use crate::input_report::InputReport;
use crate::journal_report::JournalReport;

/// What the words ask for.
#[derive(Clone, Copy, PartialEq, Eq)]
pub enum Command {
    /// `run`: serves the requests of the source on the disk.
    Run,
    /// `live`: serves the requests of the source on the disk while it is read.
    Live,
    /// A report on the input of the source.
    OnInput(InputReport),
    /// A report on the journal of the disk.
    OnJournal(JournalReport),
    /// `trial FIRMS CLAIMS SEED`: makes a large input from a number, and serves it in memory.
    Trial {
        /// How many firms, 2 to 16,384.
        firms: u32,
        /// How many claims, 1 to 262,144.
        claims: u32,
        /// The number.
        seed: u32,
    },
}
