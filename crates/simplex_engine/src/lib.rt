//! Advice for the level solver where its levels stall: a whole solution, by a network simplex.
//!
//! The simplex starts from the flows and prices that the levels came to, or from those after the rest of the excess was drained:
//! moved back along claims and windows until no node has or wants any, whatever it costs. Which of the two is sooner done is not
//! known before, so they go on by turns, each for so much work, and for twice as much at the next turn. Work is a count of looks
//! and moves and no time, so the answer is the same on each machine. Nothing is proved of the solution but that it comes, or none:
//! `adopt` of `residual_state` tests it.
//!
//! With few arcs, and most claims in pairs of opposite directions between the same two firms, a simplex starts where these are set off
//! against each other.
//!
//! Arcs may also come to a simplex by shares, those that hold most first: from where nothing is set off, or from where the levels stand.
//! What the tree lets through of a share is filled at once, and the next share comes where no open arc is bad any more. From where the
//! levels stand, excess that stays outside costs nothing at first. Then it is charged more and more, and each time the shares come anew,
//! as in the parametric simplex method.
//!
//! Its words: an arc is bad where flow would gain by leaving the bound that it is at; the tree joins all nodes to a root that no
//! claim has; a pivot brings a bad arc into the tree, moves what the circle holds, and lets another arc go. The rules are those of
//! Ahuja, Magnanti and Orlin, "Network Flows", 1993, chapter 11, with strongly feasible trees.
#![tactic(auto)]

mod buckets;
mod by_shares;
mod candidates;
mod cold;
mod draining;
mod filling;
mod kept;
mod pairs;
mod ranking;
mod shares;
mod simplex;
mod start;
mod turns;

pub use by_shares::{seek_by_shares, seek_cold_by_shares};
pub use cold::{seek_alone, seek_cold, seek_from};
pub use spanning_tree::{Advice, Edge, Halves, schedule};
pub use start::{Solution, Start};
pub use turns::{seek_drained, seek_first, seek_solution};
