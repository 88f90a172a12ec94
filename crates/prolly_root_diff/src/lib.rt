//! What turns the map of one tree into that of another, for who knows the roots of both alone.
//!
//! Two walks go side by side. Where both stand at the beginning of subtrees with one reference, both
//! go on behind these, and nothing of them is read. So the time grows with what has changed, and not
//! with the trees. Of each chunk that is read no more is believed than what the reference above it,
//! and in the end the root, vouches for.
#![tactic(auto)]

mod change;
mod differences;
mod due_trees;
mod fault;
pub mod laws;
mod leaf;
mod notes;
mod onward;
mod root_leaves;
mod siblings;
mod side;

pub use change::RootChange;
pub use differences::RootDifferences;
pub use fault::RootDiffFault;
pub use prolly_chunk::Missing;
pub use root_leaves::{LeafRead, RootLeaves};
