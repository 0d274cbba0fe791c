//! A load: the requests of an input, taken into the journal of a disk a group at a time. `load` is the whole program over its words, a
//! source, a sink and a disk.
//!
//! The input is read whole before the disk is called. The journal is opened as for a run, and the lines of the abandonments are printed.
//! Then the batches are served by `load_batches`, each group of which is on the disk, whole, before its text is printed: `load_in_order` is
//! `load` with a `Witness`, which is shown the sink and the disk before each text.
#![tactic(auto)]

mod input;
mod opening;
mod serving;
#[cfg(test)]
mod tests;
mod top;

pub use group_runs::{ExitStatus, SilentWitness, Witness};
pub use journal_texts::Ended;
pub use serving::load_requests;
pub use top::{load, load_in_order, without_words};
