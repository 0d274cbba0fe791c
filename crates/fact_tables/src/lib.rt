//! Tables of the facts of claims and accounts: how a fact is found by its name, and how entries and publications change them.
//!
//! A *fact* is what a history says of one claim or one account. A table holds each in order of its filing or registration, and no
//! key or firm twice. Its *room* is how many may be added without taking memory. Each row may be *marked*, which changes no fact.
//!
//! Rules: an accepted entry changes the one fact that it names, or adds one. A receipt lowers the open amount of its claim and, as
//! far as it goes, the part that is agreed to; a later agreement counts what was paid before it. A publication *discharges*: it takes
//! off each claim of its cut, off both amounts, what was discharged of it, and changes the balance of each party by what was
//! discharged towards and by it. The claims and the parties of a cut are marked together, and whether one is marked is told in a time
//! that does not grow with the cut.
#![tactic(auto)]

mod account_table;
mod claim_table;
mod firm_sums;
mod guesses;
mod walk;

pub use account_table::AccountTable;
pub use claim_table::ClaimTable;
