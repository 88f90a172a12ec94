//! Whether bytes are the file of a map: the steps of the checker, and the faults that they find.
mod canonical;
mod checker;
mod chunks_ahead;
mod digests;
mod fault;
mod follower;
mod frames;
mod levels;
mod order;
mod pairs_digest;

pub(crate) use checker::{cut_of, inspect};
pub use checker::{check, check_by};
pub(crate) use chunks_ahead::ChunksAhead;
pub use digests::{ChunkDigest, ChunkHasher, OneThread};
pub use fault::CheckFault;
pub(crate) use follower::Follower;
pub(crate) use frames::{chunk_at, find_frames};
pub(crate) use order::last_in;
pub use pairs_digest::PairsDigest;
