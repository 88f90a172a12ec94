//! Records and keys as lines of text: how they are read, and how records are written.
mod buffer;
mod defect;
mod explain;
mod form;
mod keys;
mod line;
mod pack;
mod reader;

pub use buffer::LINE_LIMIT;
pub use explain::{LineCounts, append_faulty_lines};
pub use form::{LineForm, RecordForm, append_change, append_line};
pub use keys::{KeysFault, keys_of_lines};
pub use pack::{LinesFault, PackFault, pack_lines, pack_lines_in};
pub use reader::{ReadLinesFault, RecordLines};
