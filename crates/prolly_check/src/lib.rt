//! The checker of chunk files, and look-ups in what it accepted.
#![tactic(auto)]

mod chunks;
mod file;
pub mod laws;
mod look_up;
mod numbers;
mod report;
mod stream;
mod tree;
mod verdict;

pub use look_up::Leaves;
pub use prolly_chunk::{LevelStats, Missing};
pub use report::{FileReport, check_bytes};
pub use stream::{RootReport, StreamFault, check_by_root};
pub use tree::{NoCounts, Tree};
pub use verdict::{CheckFault, ChunkDigest, ChunkHasher, OneThread, PairsDigest, check, check_by};
