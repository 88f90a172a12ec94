//! The numbers of files, as tables, lines and JSON.
#![tactic(auto, using(crate::proofs::Appended::front_kept))]

mod json;
mod records;
mod table;

pub use json::{append_json, append_records_json};
pub use records::{RecordNumbers, append_flaw, append_records};
pub use table::{TreeNumbers, append_table};
