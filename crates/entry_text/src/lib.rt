//! The line of an entry of a pool: `CALLER @POOL REQUEST = REPLY`, as a run prints it, without `@POOL` where the pool is
//! MAIN.
//!
//! REQUEST is the text of the act, of which a publication shows the round alone. REPLY is `ok`, a position, what became
//! of a round, or `refused` with the number and name of the refusal and the numbers that go with it. A line is at most
//! `LINE_BYTES`, and writing it takes no memory.
#![tactic(auto)]

mod entry;

pub use entry::{REPLY_BYTES, write_member, write_pool_entry, write_reply};
