//! What tests of several libraries put together: pairs, bytes, chunk files, and a source.
#![tactic(auto)]

mod bytes;
mod pairs;
mod zeros;

pub use bytes::{chunk_file, flip, joined};
pub use pairs::pairs_of;
pub use zeros::Zeros;
