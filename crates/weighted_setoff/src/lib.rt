//! Weighted set-off: what would be discharged if a cent of one claim counted more than a cent of another.
//!
//! Each claim has a weight from 1 to 9. Claims of one debtor and one creditor are not merged, since their weights may differ, so
//! each claim is an arc of the search. The search is that of plain rounds: `residual_state` is on arcs whose units count what they
//! may, and `level_solver` settles it. The prices of n parties are squeezed to be from -9n to 9n, and prove that no lawful set-off
//! has a greater weighted total.
//!
//! A `WeightedChecker` tells whether an outcome is proved by its prices. It makes the tests of `setoff_checker`, and compares the
//! weighted total with the weighted bound.
#![tactic(auto)]

mod checker;
mod judging;
mod solving;
mod start;
mod verdict;
mod weights;

pub use checker::WeightedChecker;
pub use judging::weighted_total;
pub use level_solver::{LevelSolver, settle_within};
pub use solving::solve_weighted;
pub use verdict::WeightedVerdict;
pub use weights::are_weights;
