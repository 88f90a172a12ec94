//! Loading a record file: its records go into a link, and the link is closed with how the file
//! ends. And surveying one: it is told what is good of it, and what is wrong behind that.
#![tactic(auto)]

mod buffer;
mod loader;
mod passed;
mod reader;
mod surveyor;
mod tally;
mod writer;

pub use loader::{Loaded, fault_of, load};
pub use reader::RecordReader;
pub use surveyor::survey;
pub use tally::{FlawedRecord, Survey};
pub use writer::{RecordWriter, WrittenRecords};
