//! The cut of a round, made of what is known of claims and accounts.
//!
//! A *cut* has the claims that take part in a round, each with the part of it that is agreed to and open, and the
//! *parties*, which are the firms that these claims name. The *window* of a party says by how much its balance may fall
//! in the round, the spend, and rise, the room.
//!
//! Rules: a claim takes part where its part is above 0 and it is due on or before the horizon. In a plain round no balance
//! changes. The cut of what a legal history says of claims and accounts is the history's cut.
#![tactic(auto)]

mod building;
mod laws;
mod parties;
mod windows;

pub use building::{build_cut, is_due};
pub use claim_history::{
    AccountFact, Act, Call, ClaimFact, Day, Entry, PoolEntry, Position, Reply, Status, Why,
    accepted, each_pool_has_its_history, main_pool_name, pool_bytes, record_bytes, tells_of_device,
    use_is_counted,
};
pub use laws::{cut_of_a_history_is_of_its_facts, open_cut_is_well_formed};
pub use name_index::NameIndex;
pub use windows::window;
