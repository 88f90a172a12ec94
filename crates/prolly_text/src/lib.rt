//! How things are written for people to read: the bytes of keys and values, in hexadecimal or as
//! text with the backslash escapes of PostgreSQL's `COPY`; records as lines; the names of files;
//! and the numbers of files, as tables, lines and JSON.
#![tactic(auto)]

mod laws;
mod lines;
mod notation;
mod numbers;

pub use laws::{
    lines_are_packed, lines_are_short, names_show, one_reading, texts_stand_apart, written_is_read,
    written_shows,
};
pub use lines::{
    KeysFault, LINE_LIMIT, LineCounts, LineForm, LinesFault, PackFault, ReadLinesFault, RecordForm,
    RecordLines, append_change, append_faulty_lines, append_line, keys_of_lines, pack_lines,
    pack_lines_in,
};
pub use notation::{Notation, TextFault, append_hex, append_name};
pub use numbers::{
    RecordNumbers, TreeNumbers, append_flaw, append_json, append_records, append_records_json,
    append_table,
};
