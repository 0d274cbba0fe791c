//! What the register of a firm tells of its position.
//!
//! A register has a row for each accepted entry that concerns the firm. An entry without a row leaves the position of the firm as it
//! was. So the last row tells where the firm stands after the whole history, and the balance runs from row to row.
#![tactic(auto)]

mod laws;

pub use laws::{balances_run_from_row_to_row, last_row_tells_the_position};
