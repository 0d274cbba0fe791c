//! Names and keys in order, each once, with the place of each.
//!
//! An *index* is a list of names, or of keys, in the order in which they were added. Its *place* tells where one stands, in a time
//! that does not grow with the list. Its *room* is how many may be added without taking memory.
#![tactic(auto)]

mod key_index;
mod name_index;

pub use key_index::KeyIndex;
pub use name_index::NameIndex;
