//! The bits by which chunks have about so many bytes, chosen by the records that are read first.
mod chosen_bits;
mod sample;

pub use chosen_bits::{ChosenBits, bits_note};
pub use sample::{Sample, Unread};
