//! A closed chunk whose key and bytes lie elsewhere.
ghost use Rattle.std.specs.Prelude.{◌≡◌, ◌≤◌, length};

use std::marker::Model;

/// What a [`ChunkEvent`](crate::ChunkEvent) tells of a closed chunk, where the key and the bytes
/// lie elsewhere: in such an event, or in a file.
#[derive(Drop)]
pub struct BorrowedEvent<'a> {
    level: u8,
    key: &'a [u8],
    count: u64,
    bytes: &'a [u8],
}

impl<'a> Model for BorrowedEvent<'a> {
    ghost use Rattle.std.specs.Prelude.{◌≤◌, length};
    ghost use Rattle.prolly_tree.specs.Chunk.{Chunk as ChunkValue};

    ghost Value = { ChunkValue };

    ghost view = { λ e. record {
      level = e.level;
      key = e.key.now;
      count = e.count;
      bytes = e.bytes.now;
    } };

    ghost invariant = { λ e. length e.key.now ≤ 1024 };
}

impl<'a> BorrowedEvent<'a> {
    /// The event of a chunk from its parts.
    pub fn new(level: u8, key: &'a [u8], count: u64, bytes: &'a [u8]) -> BorrowedEvent<'a>
        requires { length key.now ≤ 1024 }
        ensures { result ≡ record
            { level = level; key = key.now; count = count; bytes = bytes.now } }
    {
        BorrowedEvent {
            level,
            key,
            count,
            bytes,
        }
    }

    /// The level: 0 for a leaf, and for a node one more than that of its children.
    pub fn level(&self) -> u8
        ensures { result ≡ self.now.level }
    {
        self.level
    }

    /// The greatest key below the chunk, at most 1,024 bytes.
    pub fn key(&self) -> &'a [u8]
        ensures key { result.now ≡ self.now.key }
        ensures short { length self.now.key ≤ 1024 }
    {
        self.key
    }

    /// The number of pairs below the chunk; the greatest `u64` where there are more.
    pub fn count(&self) -> u64
        ensures { result ≡ self.now.count }
    {
        self.count
    }

    /// The bytes: the level, then the entries.
    pub fn bytes(&self) -> &'a [u8]
        ensures { result.now ≡ self.now.bytes }
    {
        self.bytes
    }
}
