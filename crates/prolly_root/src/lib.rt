//! What a map has, for who knows the root of its tree alone.
//!
//! A look-up goes down from the root to the chunk at which it ends. Each chunk is named by the
//! reference in the one above it, and the first by the root. So nothing has to be believed of who
//! gives the chunks: a [`ChunkSource`], as a [`FileChunks`] is, or a proof of one key.
#![tactic(auto)]

mod chunk_source;
mod file;
mod given_chunk;
pub mod laws;
mod look_up;
mod proof;
mod read_ahead;
mod root_fault;
mod tested;

pub use chunk_source::ChunkSource;
pub use file::{FileChunks, NamedRootFault, Subtree, named_header, named_root};
pub use given_chunk::GivenChunk;
pub use look_up::Reader;
pub use proof::{ProofFault, proof_of, verify};
pub use read_ahead::ReadAhead;
pub use root_fault::RootFault;
pub use tested::tested_chunk;
