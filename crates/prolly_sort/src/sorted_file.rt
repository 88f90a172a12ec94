//! A sorted record file.

/// The record file of sorted records, which was flushed.
#[derive(Drop)]
pub struct SortedFile<W> {
    /// The file as it was written.
    pub file: W,
    /// How many records it has, or the greatest number where there are more.
    pub len: u64,
}
