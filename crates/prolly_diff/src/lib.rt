//! What turns the map of one tree into that of another.
//!
//! Equal contents have equal leaves, so two trees are compared leaf by leaf: those that both have
//! are passed over, and only the others are read pair by pair.
#![tactic(auto)]

mod differences;
mod side;

pub use differences::{Change, Differences};
