//! The bytes of an act's record in a journal, both ways.
//!
//! A body is the number of the caller in four bytes, the pool, the tag of the act in one byte, and its fields. Of the pool MAIN
//! nothing stands there; of another its name behind a tag of its own. Numbers are big-endian: an amount has eight bytes, a day, a
//! round and a count four, a kind one. A name is one byte of its length, and its bytes. The lists of a publication begin with
//! their counts, and a price is stored in four bytes as its sum with the number of prices.
//!
//! - A journal can keep the calls whose act is valid; caller 0, the bureau itself, does nothing but abandon.
//! - Each such call has one body, and no two have the same. A body is read back to its call, and bytes that are no body of such a
//!   call are read as none: so are those that name the pool MAIN, and those that name two pools.
//! - Writing takes no memory, since the length of a body is known before. Reading takes memory for a publication alone.
#![tactic(auto)]

mod acts;
mod fields;
mod kept;
mod laws;
mod length;
mod outcomes;
mod reading;
mod tag;
mod writing;

pub use claim_history::{Act, Call, record_bytes};
pub use kept::can_be_kept;
pub use laws::{bodies_have_their_lengths, each_body_is_of_one_call};
pub use length::{body_length, publication_length};
pub use reading::read_body;
pub use writing::encode;
