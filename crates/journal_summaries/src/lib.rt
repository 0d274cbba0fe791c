//! Summaries of a journal: the register of a firm, the pools, and the seal of its acts. Each is a text made of the books of all pools.
//!
//! A *register* tells what happened to the account of a firm of a pool, entry by entry: what each adds to the balance and takes from
//! it, and what the firm has, is owed and owes after it. It is written as a journal is replayed, since the books have the position after
//! an entry only until the next one.
//!
//! The *pools* are listed in the order of their first entries, each with how full it is.
//!
//! A *seal* is one line that tells how many acts there are, how many bytes their records take in the journal, and the SHA-256 of these
//! bytes. Whoever kept it can ask on any later day whether the journal still begins with these acts.
#![tactic(auto)]

mod firm_account;
mod flows;
mod laws;
mod listing;
mod pool_list;
mod rows;
mod seal_line;
mod table;

pub use firm_account::{Register, account_status};
pub use laws::{balances_run_by_rows, same_acts_have_one_seal};
pub use pool_list::pools;
pub use seal_line::{seal, seal_status};
