//! The next tree from the last one: the leaves of an old tree, and changes that are laid over its
//! map.
//!
//! A leaf that no change touches goes on as it is: none of its pairs is copied, and it is not hashed
//! again. The stages above are those of any build.
#![tactic(auto)]

mod cutting;
mod loader;
mod old_leaf;
mod old_pairs;
mod stage;
mod stop;

pub use loader::{OldLoaded, load_old};
pub use old_leaf::OldLeaf;
pub use prolly_stage::OLD_TREE;
pub use stage::{Applied, apply_stage};
