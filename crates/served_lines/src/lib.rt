//! What comes of the lines of a batch.
//!
//! A line of the input asks one act in one pool. It is replied to, by one member of the history or, where it is a Close that is
//! accepted, by this member and the publication of its round; or there was no memory for it; or its act was full. `IsServed` says
//! what the members of a batch are, of any number of lanes and pools: those of each lane are those of its lines, in order, each
//! in the pool of its line.
#![tactic(auto)]

mod answer;
mod ends;
mod laws;
mod line_end;

pub use answer::Answer;
pub use ends::{some_device, some_full, some_memory};
pub use laws::no_line_is_full_within_the_bound;
pub use limited_book::{
    Act, Book, Books, ClaimFact, Day, Entry, Full, Reply, Room, Verdict, build_cut,
    cut_of_a_history_is_of_its_facts, is_due,
};
pub use line_end::LineEnd;
pub use request_text::{Batch, LineCause, Request};
