//! A chunk as a source gives it.
ghost use Rattle.std.specs.Prelude.{◌≡◌, true};
ghost use Rattle.prolly_look_up.specs.Way.{IsNamed};

use prolly_entry::{Ref, Version};
use prolly_look_up::reference_of_ordered;
use std::marker::Model;

/// A chunk as a [`ChunkSource`](crate::ChunkSource) gives it. Contracts see its bytes. Where it was
/// tested before it was asked for, who asks does not hash it again.
#[derive(Drop)]
pub struct GivenChunk {
    bytes: Vec<u8>,
    /// The version whose chunk it was found to be, and its reference; none where it was not tested.
    name: Option<(Version, Ref)>,
}

impl Model for GivenChunk {
    ghost use Rattle.std.specs.Prelude.{ℕ, IfSome, List};
    ghost use Rattle.prolly_look_up.specs.Way.{IsNamed};

    ghost Value = { List ℕ };

    ghost view = { λ g. g.bytes.items };

    ghost invariant = { λ g. IfSome g.name (λ name. IsNamed name.0 name.1.0 g.bytes.items) };
}

impl GivenChunk {
    /// A chunk that was not tested.
    pub fn new(bytes: Vec<u8>) -> GivenChunk
        ensures { result ≡ bytes.items }
    {
        GivenChunk { bytes, name: None }
    }

    /// Tests whether it is a chunk of this version: a level and whole lawful entries of that level's
    /// kind, whose keys rise. Takes no memory, and time linear in its length.
    pub fn test(&mut self, version: Version)
        ensures { self.new ≡ self.old }
    {
        self.name = match reference_of_ordered(version, &self.bytes) {
            Some(reference) => Some((version, reference)),
            None => None,
        };
    }

    /// Whether it was tested, and is a chunk of this version with this reference.
    pub fn is_named(&self, version: Version, reference: &Ref) -> bool
        ensures { result ≡ true → IsNamed version reference.now.0 self.now }
    {
        match &self.name {
            Some((of, found)) => *of == version && found == reference,
            None => false,
        }
    }

    /// Its bytes.
    pub fn as_bytes(&self) -> &[u8]
        ensures { result.now ≡ self.now }
    {
        &self.bytes
    }

    /// Its bytes.
    pub fn into_bytes(self) -> Vec<u8>
        ensures { result.items ≡ self }
    {
        self.bytes
    }
}
