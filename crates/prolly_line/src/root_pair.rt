//! The roots of two trees.
use prolly_entry::Ref;

/// The roots of two trees.
#[derive(Clone, Copy, Debug, PartialEq, Eq)]
pub struct RootPair {
    /// That of the tree as it was.
    pub old: Ref,
    /// That of the tree as it is now.
    pub new: Ref,
}
