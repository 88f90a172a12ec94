//! The chunks of a file: its frames, one after another, and the trees that stand among them.

mod end_record;
mod fetched;
mod file_chunks;
mod header;
mod marks;
mod named_root_fault;
mod subtree;
mod walk;

pub use end_record::named_root;
pub use file_chunks::FileChunks;
pub use header::named_header;
pub use named_root_fault::NamedRootFault;
pub use subtree::Subtree;
