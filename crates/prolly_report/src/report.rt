//! What a build has made.
use prolly_entry::Ref;

/// What a build has made.
#[derive(Clone, Copy, Debug, PartialEq, Eq)]
pub struct Report {
    /// The reference of the tree's root.
    pub root: Ref,
    /// How many chunks the tree has.
    pub chunks: u64,
    /// How many pairs the map has.
    pub pairs: u64,
    /// How many levels the tree has, the leaves counted as one.
    pub levels: u8,
}
