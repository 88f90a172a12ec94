//! What the commands of the program answer.
#![tactic(auto)]

mod answers;
mod chunk_bytes;
mod input;
mod key_list;
pub mod laws;
mod lines;

pub use answers::{
    RootDiff, RootScan, SortedPack, StatForm, Stated, answer_check, answer_check_by,
    answer_check_by_root, answer_diff, answer_diff_by_root, answer_dump, answer_dump_by_root,
    answer_explain, answer_explain_lines, answer_found, answer_found_pair, answer_found_raw,
    answer_get, answer_get_by_root, answer_get_in, answer_get_keys, answer_get_keys_by_root,
    answer_get_raw, answer_get_raw_by_root, answer_nth, answer_nth_by_root, answer_nth_in,
    answer_pack, answer_pack_in, answer_pack_sorted, answer_prove, answer_prove_by_root,
    answer_prove_set, answer_prove_set_by_root, answer_root, answer_scan, answer_scan_by_root,
    answer_scan_in, answer_scratch, answer_stat, answer_verify, answer_verify_set, status_behind,
};
pub use chunk_bytes::{ChosenBits, Sample, Unread, bits_note};
pub use key_list::read_keys;
