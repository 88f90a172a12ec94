//! The chunks of one level of a tree, in numbers.

/// The chunks of one level of a tree, in numbers. The bytes are those of the chunks, without the
/// frames that stand around them in a file.
#[derive(Clone, Copy)]
pub struct LevelStats {
    /// How many chunks the level has.
    pub chunks: u64,
    /// How many bytes they have together.
    pub bytes: u64,
    /// How many bytes the smallest chunk has.
    pub least: u64,
    /// How many bytes the chunk in the middle has, in the order of their sizes: of an even number
    /// of chunks the upper one of the two.
    pub middle: u64,
    /// How many bytes the greatest chunk has.
    pub greatest: u64,
}
