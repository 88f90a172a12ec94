//! The chunks that who has another tree lacks, in numbers.

/// The chunks of a tree whose references another tree lacks: what a replica that has the other one
/// has to fetch.
#[derive(Clone, Copy)]
pub struct Missing {
    /// How many chunks these are.
    pub chunks: u64,
    /// How many bytes they have together, without the frames that stand around them in a file.
    pub bytes: u64,
}
