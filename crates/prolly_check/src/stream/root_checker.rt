//! The checker of a file that is read once, by its root.
ghost use Rattle.std.specs.Prelude.{◌≡◌, ◌≢◌, ◌↔◌, ◌⊎◌, ◌<◌, ◌≤◌, ◌^◌, ◌++◌, [], true, length};
ghost use Rattle.std.specs.Prelude.{IfErr, IfOk, IsErrOf, OnOk};
ghost use Rattle.prolly_entry.specs.Cut.{sha512_cut};
ghost use Rattle.prolly_tree.specs.File.{root_reference};
ghost use Rattle.prolly_look_up.specs.Content.{Content};
ghost use Rattle.prolly_check.specs.FirstFlaw.{IsBodyVerdict, IsFileOfRoot, IsMapFile};
ghost use Rattle.prolly_check.specs.FirstFlaw.{IsRootVerdict, IsStreamFault};
ghost use Rattle.prolly_check.specs.Incoming.{Reads};

use crate::stream::chunks_read::ChunksRead;
use crate::stream::fault::StreamFault;
use crate::stream::incoming::{fill, let_go};
use crate::verdict::{CheckFault, ChunkHasher, cut_of};
use prolly_entry::{Ref, Version};
use prolly_io::{HEADER_SIZE, Header, PartReader, Source, read_header};
use std::alloc::Global;

/// What is said of a file that is that of the tree of a root.
#[derive(Clone, Copy, Debug, PartialEq, Eq)]
pub struct RootReport {
    /// The number of bits by which the entries were cut.
    pub bits: u8,
    /// The number of chunks.
    pub chunks: u64,
}

/// Reads a source once, to its end, and accepts its bytes exactly where they are the file of a map,
/// of this version and any number of bits, whose root is this one. The file may be of any size.
///
/// Answers the first fault in the order of the bytes: the first byte at which they part from the file
/// of the pairs that were read; then a root that is another one. Two chunks with one reference are
/// no fault here, since the root is given.
///
/// Takes time linear in the bytes, and hashes what [`check`](crate::check) hashes. Holds a window
/// of 16 MiB, or twice a chunk that is larger, some 80 bytes for each chunk in it, and one open chunk
/// of each level, whatever the file's size. A chunk of more than some 2 GiB is told as want of
/// memory.
pub fn check_by_root<H: ChunkHasher, S: Source>(
    hasher: &H,
    alloc: Global,
    source: &mut S,
    version: Version,
    root: &Ref,
) -> Result<RootReport, StreamFault>
    requires { H.can_hash hasher.now }
    // What is accepted is the file of a map with this root.
    ensures accepted { (S.seen source.old).is_honest ≡ true →
        IfOk result (IsFileOfRoot version root.now.0 (S.seen source.old).left) }

    // No such file of fewer than 2^64 bytes is refused, but for want of memory or a failed read.
    ensures files { (S.seen source.old).is_honest ≡ true → (content : Content) →
        IsMapFile (S.seen source.old).left content → content.version ≡ version →
        root_reference (sha512_cut content.bits) content.version content.pairs ≡ root.now.0 →
        length (S.seen source.old).left < 2 ^ 64 →
        IfErr result (λ fault. (fault ≡ StreamFault.Check CheckFault.Memory)
        ⊎ (fault ≡ StreamFault.Check CheckFault.Read)) }

    // Other bytes are refused by their first flaw.
    ensures refused { (S.seen source.old).is_honest ≡ true →
        IfErr result (IsStreamFault version root.now.0 (S.seen source.old).left) }

    // A failed read is told as one, whatever else would follow it.
    ensures read { IsErrOf result (StreamFault.Check CheckFault.Read) ↔
        ((S.seen source.new).failures ≢ (S.seen source.old).failures) }
    ensures unfailed { OnOk result ((S.seen source.new).failures ≡ (S.seen source.old).failures) }
    ensures never { (S.seen source.old).is_steady ≡ true →
        (S.seen source.new).failures ≡ (S.seen source.old).failures }
    ensures honest { (S.seen source.old).is_honest ≡ true → (S.seen source.new).is_honest ≡ true }
    ensures steady { (S.seen source.old).is_steady ≡ true → (S.seen source.new).is_steady ≡ true }
{
    let mut reader = PartReader::new(alloc)?;
    let mut bytes = Vec::new(alloc);
    check_with(
        hasher,
        alloc,
        source,
        &mut reader,
        &mut bytes,
        version,
        root,
    )
}

/// Checks a source by its root, with a reader and room for its bytes.
fn check_with<H: ChunkHasher, S: Source>(
    hasher: &H,
    alloc: Global,
    source: &mut S,
    reader: &mut PartReader,
    bytes: &mut Vec<u8>,
    version: Version,
    root: &Ref,
) -> Result<RootReport, StreamFault>
    requires can { H.can_hash hasher.now }
    requires none { bytes.old.items ≡ [] }
    ensures verdict { (S.seen source.old).is_honest ≡ true →
        IsRootVerdict version root.now.0 (S.seen source.old).left result }
    ensures source { Reads (S.seen source.old) (S.seen source.new)
        (StreamFault.Check CheckFault.Read) result }
{
    fill(source, reader, bytes)?;
    let header = match read_header(bytes) {
        Ok(header) => header,
        Err(fault) => return Err(StreamFault::Check(CheckFault::from(fault))),
    };
    if header.version != version {
        return Err(StreamFault::Version);
    }
    let_go(bytes, HEADER_SIZE);
    let (chunks, found) = check_body(hasher, alloc, source, reader, bytes, header)?;
    if found != *root {
        return Err(StreamFault::OtherRoot);
    }
    let bits = header.bits;
    Ok(RootReport { bits, chunks })
}

/// Checks what stands behind a header, of which these bytes were read already. Answers the number
/// of chunks and the root.
fn check_body<H: ChunkHasher, S: Source>(
    hasher: &H,
    alloc: Global,
    source: &mut S,
    reader: &mut PartReader,
    bytes: &mut Vec<u8>,
    header: Header,
) -> Result<(u64, Ref), CheckFault>
    requires can { H.can_hash hasher.now }
    requires bits { header.bits ≤ 24 }
    ensures verdict { (S.seen source.old).is_honest ≡ true → IsBodyVerdict header.version header.bits
        (bytes.old.items ++ (S.seen source.old).left) result }
    ensures source { Reads (S.seen source.old) (S.seen source.new) CheckFault.Read result }
{
    let mut read = ChunksRead::new(alloc, cut_of(header), header.version)?;
    let mut size = 0;
    loop {
        fill(source, reader, bytes)?;
        if !read.take_frames(hasher, alloc, bytes, &mut size)? {
            return read.finish(alloc, bytes);
        }
    }
}
