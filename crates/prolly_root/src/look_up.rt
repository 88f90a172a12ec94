//! Looking up by the root, again and again.

mod chunk_on_way;
mod copies;
mod descent;
mod reader;

pub use reader::Reader;
