//! The books of the bureau: its history, with the claims, the accounts and the open round that each pool comes to.
//!
//! A *book* is that of one pool. It *answers* a call with the one reply of its history, and *applies* the entry of the call and
//! its reply. Its *room* is how many entries may be applied without taking memory; `reserve` makes it before. The *next cut* is
//! that of the round that a Close would open now, and the *open cut* that of the round that is open. The *books* of all pools do
//! the same for each, and keep the order of all entries.
//!
//! Rules: after each call a book says of claims, accounts and rounds what its history says. While a round is open, each entry of
//! its pool but the publication by its owner leaves the room of one more, so that this publication takes no memory. Entries of
//! other pools take none of it.
#![tactic(auto)]

mod account_answer;
mod book;
mod books;
mod claim_answer;
mod pool_book;
mod round;
mod round_answer;

pub use book::Book;
pub use books::Books;
pub use round_cut::{
    AccountFact, Act, Call, ClaimFact, Day, Entry, PoolEntry, Position, Reply, Status, Why,
    accepted, build_cut, cut_of_a_history_is_of_its_facts, each_pool_has_its_history, is_due,
    main_pool_name, open_cut_is_well_formed, pool_bytes, record_bytes, tells_of_device,
    use_is_counted,
};
