//! What a name, or an open file, leads to.
use std::fs::Metadata;
use std::io::ErrorKind;
use std::os::unix::fs::{FileTypeExt, MetadataExt};
use std::{fs, io};

/// A file, by whatever names and links one comes to it.
#[derive(Clone, Copy, PartialEq, Eq)]
pub struct FileId {
    device: u64,
    inode: u64,
}

/// What the system tells of a regular file's bytes. A write changes it, unless it leaves the size as it
/// was and comes within a tick of the file system's clock, a few milliseconds.
#[derive(Clone, Copy, PartialEq, Eq)]
pub struct FileStamp {
    size: u64,
    /// When the file was last written to: the seconds since 1970, and the nanoseconds within a second.
    at: (i64, i64),
}

/// What a name, or an open file, leads to.
#[derive(Clone, Copy)]
pub enum Found {
    /// No file.
    Nothing,
    /// A regular file, which keeps what is written to it.
    Regular(FileId, FileStamp),
    /// A block device of this number, which keeps what is written to it, too.
    Block(u64),
    /// A pipe.
    Pipe(FileId),
    /// A terminal, another device, a socket or a folder.
    Other,
    /// What can't be told: a file may well be there.
    Unseen,
}

impl Found {
    /// What has this metadata.
    pub fn of(metadata: &Metadata) -> Found {
        let id = FileId {
            device: metadata.dev(),
            inode: metadata.ino(),
        };
        if metadata.is_file() {
            let stamp = FileStamp {
                size: metadata.len(),
                at: (metadata.mtime(), metadata.mtime_nsec()),
            };
            Found::Regular(id, stamp)
        } else if metadata.file_type().is_block_device() {
            Found::Block(metadata.rdev())
        } else if metadata.file_type().is_fifo() {
            Found::Pipe(id)
        } else {
            Found::Other
        }
    }

    /// What the name leads to now. An error says that the system can't tell: then a file may well
    /// be there.
    pub fn at(rt: &HostRuntime, name: &str) -> io::Result<Found> {
        match fs::metadata(rt, name) {
            Ok(metadata) => Ok(Found::of(&metadata)),
            Err(error) if error.kind() == ErrorKind::NotFound => Ok(Found::Nothing),
            Err(error) => Err(error),
        }
    }

    /// Whether a name that the file was given is its own still: no other file has come in its place,
    /// and no link.
    pub fn has_name(self, rt: &HostRuntime, name: &str) -> bool {
        match fs::symlink_metadata(rt, name) {
            Ok(metadata) => Found::of(&metadata).is_same_file(self),
            Err(_) => false,
        }
    }

    /// Whether it keeps what is written to it.
    pub fn keeps_bytes(self) -> bool {
        matches!(self, Found::Regular(..) | Found::Block(_))
    }

    /// Whether it holds bytes. What a block device holds can't be told, so it does.
    pub fn holds_bytes(self) -> bool {
        match self {
            Found::Regular(_, stamp) => stamp.size > 0,
            Found::Block(_) => true,
            _ => false,
        }
    }

    /// Whether both are one regular file, or one block device.
    pub fn is_same_file(self, other: Found) -> bool {
        match (self, other) {
            (Found::Regular(one, _), Found::Regular(another, _)) => one == another,
            (Found::Block(one), Found::Block(another)) => one == another,
            _ => false,
        }
    }

    /// Whether both are one pipe.
    pub fn is_same_pipe(self, other: Found) -> bool {
        match (self, other) {
            (Found::Pipe(one), Found::Pipe(another)) => one == another,
            _ => false,
        }
    }

    /// Whether what is written to the one may be read from the other: both are one file, or one pipe.
    pub fn is_same(self, other: Found) -> bool {
        self.is_same_file(other) || self.is_same_pipe(other)
    }

    /// Whether it is what a look at its name has found before, and was not written to since. Terminals
    /// and devices that keep nothing are not told apart.
    pub fn is_still(self, before: Found) -> bool {
        match (self, before) {
            (Found::Regular(one, now), Found::Regular(another, then)) => {
                one == another && now == then
            }
            (Found::Other, Found::Other) => true,
            _ => self.is_same(before),
        }
    }

    /// How many bytes it has, where it is a regular file.
    pub fn size(self) -> Option<u64> {
        match self {
            Found::Regular(_, stamp) => Some(stamp.size),
            _ => None,
        }
    }
}
