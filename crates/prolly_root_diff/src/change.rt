//! A change of one key.
use prolly_entry::Pair;

/// What a key has in two maps, where that is not the same.
#[derive(Drop)]
pub enum RootChange {
    /// The old map has this pair, and the new one has nothing at its key.
    Removed(Pair),
    /// The new map has this pair, and the old one has nothing at its key.
    Added(Pair),
    /// The old map has the one, and the new map the other, of the same key.
    Changed(Pair, Pair),
}
