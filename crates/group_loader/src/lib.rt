//! Keeps calls in a journal, a group at a time.
//!
//! Each call is answered by the books of its pool, at once and in order. The records of those that are accepted gather in memory, and
//! `keep` appends them as one group, with two syncs. Before that no reply of the group may be told.
//!
//! A disk that fails ends the load: it is handed back, and each of its images stands for the calls that were kept by then, alone or
//! with the whole group.
#![tactic(auto)]

mod loader;

pub use loader::{LoadError, LoadStopped, Loader};
