//! A chunk file, with what is to be known of it.
use prolly_entry::{Pair, Ref, Sha512Cut, Version};
use prolly_file::scratch_as;
use prolly_io::ScriptDevice;
use prolly_root::FileChunks;
use prolly_test_parts::pairs_of;
use std::alloc::{AllocError, Global};
use std::test::Fail;

/// More levels than any of these trees has.
const MOST_LEVELS: u8 = 20;

/// The chunks of a file on a device that is honest.
pub(crate) type Chunks = FileChunks<ScriptDevice>;

/// A chunk file, and what a reader by the root is told of it.
#[derive(Drop)]
pub(crate) struct TreeFile {
    pub(crate) version: Version,
    pub(crate) root: Ref,
    pub(crate) bytes: Vec<u8>,
}

impl TreeFile {
    /// The file of these pairs.
    pub(crate) fn new(
        alloc: Global,
        version: Version,
        bits: u8,
        pairs: &[Pair],
    ) -> Result<TreeFile, Fail> {
        let cut = Sha512Cut::new(bits).ok_or("bits")?;
        let mut bytes = Vec::new(alloc);
        let root = scratch_as(alloc, cut, version, pairs, MOST_LEVELS, &mut bytes)?;
        Ok(TreeFile {
            version,
            root,
            bytes,
        })
    }

    /// The file of these keys, each with the value 1, of 0 bits: each pair is a leaf.
    pub(crate) fn of_keys(
        alloc: Global,
        version: Version,
        keys: &[&[u8]],
    ) -> Result<TreeFile, Fail> {
        TreeFile::new(alloc, version, 0, &pairs_of(alloc, keys)?)
    }

    /// The file of these keys of a byte each, each with itself as its value.
    pub(crate) fn of_bytes(
        alloc: Global,
        version: Version,
        bits: u8,
        keys: &[u8],
    ) -> Result<TreeFile, Fail> {
        let mut pairs = Vec::new(alloc);
        for key in keys {
            pairs.push(Pair::copy_of(alloc, &[*key], &[*key])?)?;
        }
        TreeFile::new(alloc, version, bits, &pairs)
    }

    /// The chunks of the file on a device whose call of this number fails; 0 for none.
    pub(crate) fn chunks(&self, alloc: Global, fail_at: u64) -> Result<Chunks, AllocError> {
        let bytes = self.bytes.to_vec(alloc)?;
        Ok(FileChunks::new(ScriptDevice::new(bytes, Some(fail_at))))
    }
}
