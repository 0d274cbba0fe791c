//! The text of a history, or of what it has behind its first acts: the line of each entry, and below each publication its statement;
//! or the statement of one round, or a page for each of its parties.
//!
//! It is the text that a run prints as it adds the entries. A publication has no cut, and books keep the cut of a round no longer
//! than it is open. So the entries before a publication are *replayed* into books of their own, in which the cut is open that its
//! statement needs. What stands behind the last publication is printed without. The text goes to the sink as it is made.
//!
//! Where entries of one pool are told, they are told as those of MAIN, so that no line names the pool.
#![tactic(auto)]

mod history;
mod laws;
mod lists;
mod pages;
mod parts;
mod replaying;
mod round;
mod round_form;
mod since;
mod told;

pub use history::print_history;
pub use laws::{
    a_history_is_told_in_parts, accepted_entries_are_told_again, each_claim_has_two_pages,
};
pub use parts::print_parts;
pub use round::print_round;
pub use since::print_since;
