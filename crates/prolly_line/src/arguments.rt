//! The options, flags and words of the commands.
mod flags;
mod options;
mod words;

pub(crate) use flags::{
    all_flag, atomic_flag, force_flag, hex_flag, json_flag, lines_flag, quiet_flag, raw_flag,
    removals_flag, sort_flag, stat_flag, sync_flag, text_flag, unique_flag,
};
pub(crate) use options::{
    batch_option, bits_option, capacity_option, chunk_bytes_option, format_option, from_option,
    keys_option, max_records_option, memory_option, old_format_option, out_option,
    required_root_option, root_option, stages_option, to_option, tree_root_option,
};
pub use options::{DEFAULT_BATCH, DEFAULT_CAPACITY, DEFAULT_MAX_RECORDS, DEFAULT_STAGES};
pub(crate) use words::{
    changes_words, file_word, file_words, files_words, key_word, limit_word, n_word,
    optional_file_word, optional_key_word, optional_out_word, out_word, proof_word, root_word,
    tree_word,
};
