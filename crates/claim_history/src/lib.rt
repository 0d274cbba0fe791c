//! The history of the bureau: acts, replies, and the one reply of a history to each act.
//!
//! An entry is what a caller asked, and what was replied. A history is a list of entries in order of time; a past is
//! the same list, newest first, and definitions go over pasts. What a history comes to is its state: the accepted acts,
//! the rounds that were published, how many were opened, and the open round. Everything that is known of claims and
//! accounts is a filter or a sum over the accepted acts and the published rounds.
//!
//! - The one reply to an act is given by rows of refusals, tried in order; where none applies, the act is accepted.
//! - A history is legal where each reply is the one that is due, or tells that the device failed at an act that would
//!   be accepted. A refusal changes nothing.
//! - A debtor confirms a claim whole, or up to an amount. The part of a claim is what its debtor agrees to less what was
//!   received and discharged. Rounds discharge parts, and positions count them; a receipt asks the open amount alone.
//! - A CLOSE opens a round, whose cut is made of the entries before it. The round is open until a publication or an
//!   Abandon is accepted. While it is open its cut is frozen: the claims of the cut, and in a FUNDED round the accounts
//!   of its parties.
//! - A publication is accepted where its prices prove its discharges greatest for the cut.
//! - Two limits, of entries and of the bytes of a journal, are counted so that both endings of an open round always
//!   have room.
//!
//! The crate holds the types, their texts and the definitions. Its other functions are laws: each says by its contract
//! what holds of every history, and does nothing when it is called. Days are civil dates by their numbers. Amounts are
//! cents.
#![tactic(auto)]

mod act;
mod act_text;
mod call;
mod day;
mod entry;
mod fact;
mod laws;
pub mod record_bytes;

pub use act::{Act, each_act_has_its_own_text};
pub use act_text::{ACT_BYTES, ACT_SPARE, write_act};
pub use call::{Call, PoolEntry, is_main, main_pool_name, pool_bytes};
pub use day::{Day, days_are_civil_dates};
pub use entry::{Entry, Reply, Why, accepted, tells_of_device};
pub use fact::{AccountFact, ClaimFact, Position, Status};
pub use laws::{
    calls_bound_use_and_cuts, each_pool_has_its_history, each_round_has_one_cut,
    full_register_refuses_claims, limits_hold, open_cut_is_frozen, owned_round_stays_open,
    publication_keeps_net_positions, publications_are_greatest, published_cuts_are_in_order,
    room_for_endings_is_kept, round_is_open_until_its_end, rounds_left_open_are_ended,
    state_is_of_the_history, untouched_firms_stay, use_is_counted,
};
