//! What the commands of the program are made of, by one name: the command line, what the commands
//! answer, also to words that give none, lines of text, and builds. Files and their chunks are those
//! of `prolly_file` and `prolly_root`.
#![tactic(auto)]

pub use prolly_answer::{
    ChosenBits, RootDiff, RootScan, Sample, SortedPack, StatForm, Stated, answer_check,
    answer_check_by, answer_check_by_root, answer_diff, answer_diff_by_root, answer_dump,
    answer_dump_by_root, answer_explain, answer_explain_lines, answer_found, answer_found_pair,
    answer_found_raw, answer_get, answer_get_by_root, answer_get_in, answer_get_keys,
    answer_get_keys_by_root, answer_get_raw, answer_get_raw_by_root, answer_nth,
    answer_nth_by_root, answer_nth_in, answer_pack, answer_pack_in, answer_pack_sorted,
    answer_prove, answer_prove_by_root, answer_prove_set, answer_prove_set_by_root, answer_root,
    answer_scan, answer_scan_by_root, answer_scan_in, answer_scratch, answer_stat, answer_verify,
    answer_verify_set, bits_note, laws, read_keys, status_behind,
};
pub use prolly_build::{
    AllStart, AppliedChanges, ApplyFault, CHANGES_LIMIT, Config, ConfigFault, FILES_LIMIT, Permit,
    Report, apply_changes, apply_changes_with, build, build_with,
};
pub use prolly_fault::{Answer, Fault, INPUT_LIMIT, NameFault, OutputFault};
pub use prolly_line::{Command, ParseFault, RootPair, Sought, WriteMode, parse};
pub use prolly_runs::{
    HeldBack, agreed_header, answer_apply, answer_apply_into, answer_build, answer_build_into,
    answer_refusal,
};
pub use prolly_text::{
    KeysFault, LineForm, LinesFault, Notation, PackFault, RecordForm, keys_of_lines, pack_lines,
    pack_lines_in,
};
