//! Checking a file of any size while it is read, by its root.
mod chunks_read;
mod fault;
mod incoming;
mod root_checker;

pub use fault::StreamFault;
pub use root_checker::{RootReport, check_by_root};
