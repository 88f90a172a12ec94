//! What prolly trees over sorted maps of byte strings are made of: keys, pairs, records, their
//! spellings, references, and cuts. Their definitions stand in `specs/`.
#![tactic(auto)]

mod child;
mod cut;
mod fault_text;
mod front;
mod next;
mod pair;
mod record;
mod record_file;
mod reference;
mod spelling;
mod storage;
mod version;

pub use child::{Child, ChildAt, append_child, append_child_as, front_child, front_child_as};
pub use cut::{BITS_LIMIT, Cut, KeyCut, Sha512Cut};
pub use fault_text::FaultText;
pub use front::{Front, FrontRecord, front_pair, front_record, split_pair};
pub use next::{Flaw, NextRecord, RecordAt, next_record};
pub use pair::{EntryFault, KEY_LIMIT, Pair, VALUE_LIMIT, key_order, key_rises};
pub use record::Record;
pub use record_file::{RecordFault, records};
pub use reference::{REFERENCE_SIZE, Ref};
pub use spelling::{
    KEY_START, LENGTHS_SIZE, append_pair, append_record, append_record_of, split_key,
};
pub use version::Version;
