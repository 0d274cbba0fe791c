//! The books of all pools, kept to the limits of entries and of the bytes of a journal.
//!
//! What a history *uses* are its entries, but for those that tell of a device, and the bytes of a journal of its accepted acts.
//! Each open round *reserves* both its *endings*: the publication, and an abandonment. What a call *needs* is what is used, its
//! own entry and record, and what the rounds that are open afterwards reserve. It is *full* where a need is above its limit.
//!
//! Rules: an entry is put into the books only where its call was within the limits when it was asked. So each open round can
//! always be ended: the room for its endings was counted when it was opened. The limits are those of all pools together.
#![tactic(auto)]

mod full;
mod limited;
mod need;
mod publication;
mod room;

pub use act_bodies::{body_length, encode, publication_length};
pub use claim_book::{
    Act, Book, Books, Call, ClaimFact, Day, Entry, PoolEntry, Reply, Why, accepted, build_cut,
    cut_of_a_history_is_of_its_facts, is_due, open_cut_is_well_formed, pool_bytes, tells_of_device,
};
pub use full::Full;
pub use limited::LimitedBooks;
pub use publication::publication_reply;
pub use room::Room;
pub use setoff_checker::{Checked, Verdict};
