//! What the bytes of a chunk hold, and how a look-up goes down a tree, chunk by chunk.
//!
//! A look-up knows of the chunk that is due next its reference and the level above it. So
//! [`step_at`] tests a chunk that may have come from anywhere, and tells where the look-up goes on,
//! or the pairs at which it ends. Who knows the reference of a map's root knows by such a way what
//! the map has: see [`laws::ways_are_right`].
//!
//! [`ManyThreads`] says how many threads share the work on chunks. It stands here since the checker and
//! the sources of chunks both take it.
#![tactic(auto)]

mod copies;
mod entries;
mod found;
pub mod laws;
mod many_threads;
mod rest;
mod sought;
mod step;

pub use copies::{copy_pairs, first_pairs};
pub use entries::{LEAF, Pairs, is_node, pairs_of, split_first_child, split_first_pair};
pub use found::{pair_sought, value_in};
pub use many_threads::ManyThreads;
pub use rest::rest_from;
pub use sought::{ChildSought, Mark, Sought};
pub use step::{
    ChunkFlaw, Due, Step, falls_to, reference_of_ordered, step_at, step_of, test_chunk,
};
