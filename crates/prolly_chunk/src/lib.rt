//! The chunks of a prolly tree, and how one level of the tree is cut into them: a machine without
//! threads, which takes a level's entries one by one and answers the chunks that they close; and
//! numbers of chunks: those of a level, and those that another tree lacks.
#![tactic(auto)]

mod borrowed;
mod chunk;
mod event;
mod leaf;
mod level_stats;
mod missing;
mod node;

pub use borrowed::BorrowedEvent;
pub use event::ChunkEvent;
pub use leaf::LeafLevel;
pub use level_stats::LevelStats;
pub use missing::Missing;
pub use node::NodeLevel;
