//! The tree of a network simplex: its arcs, its nodes, their potentials, and the tree that a simplex starts from.
//!
//! The tree joins all nodes to a root that no claim has. Of each node it knows the arc to its parent and how much can be moved over
//! that. Potentials change by fragments of the tree, so that a pivot does not go through all nodes of the part that it moves. Nothing is
//! proved of it: who takes a solution tests that. The tree is that of Ahuja, Magnanti and Orlin, "Network Flows", 1993, chapter 11.
#![tactic(auto)]

mod arcs;
mod forest;
mod fragments;
mod layout;
mod numbers;
mod paths;
mod potentials;
mod queue;
mod runs;
mod stretches;
mod tree;
mod walks;

pub use arcs::{Arc, NO_ARC, arcs_of};
pub use forest::{MUCH, Start, own_code, plant};
pub use level_engine::{Advice, Edge, Half, Halves, schedule};
pub use paths::{Branch, Circle, NOBODY, Node, Room};
pub use potentials::Potentials;
pub use queue::Queue;
pub use tree::Tree;
