//! The values of one option or word, from what clap found.
mod flags;
mod keys;
mod numbers;
mod roots;
mod words;

pub(crate) use flags::{flag_of, lines_of, mode_of, notation_of};
pub(crate) use keys::{key_of, place_of_last, sought_of};
pub(crate) use numbers::{
    bits_of, byte_of, chunk_bytes_of, memory_of, number_of, optional_byte_of,
};
pub(crate) use roots::{root_of, roots_of, trust_of};
pub(crate) use words::{has_several, is_given, option_of, text_of, texts_of};
