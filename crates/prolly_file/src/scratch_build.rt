//! The plain builder: one thread, all levels in memory.
ghost use Rattle.std.specs.Prelude.{◌≡◌, ◌<◌, List, [], ◌∷◌, ◌++◌, length, take, OnOk, OnErr};
ghost use Rattle.std.specs.List.{flat_map};
ghost use Rattle.prolly_entry.specs.declared.version.Version.TheVariants.{One};
ghost use Rattle.prolly_entry.specs.Reference.{reference_of};
ghost use Rattle.prolly_tree.specs.Chunk.{Chunk};
ghost use Rattle.prolly_tree.specs.File.{header, frame, end_record};
ghost use Rattle.prolly_file.specs.Scratch.{IsScratched};

use crate::levels::{all_chunks, first_fall};
use prolly_chunk::ChunkEvent;
use prolly_entry::{Cut, FaultText, Pair, Ref, Version};
use prolly_io::{END_SIZE, FRAME_START, HEADER_SIZE, Header, end_record, frame_start};
use std::alloc::{AllocError, Global};
use std::error::Error;
use std::fmt;
use std::fmt::{Display, Formatter};

/// Why there is no file of pairs.
#[derive(Clone, Copy, Debug, PartialEq, Eq)]
pub enum ScratchFault {
    /// Memory was refused.
    Memory,
    /// The key of this pair, counted from 0, is not greater than the one before. It is the first
    /// such pair.
    OutOfOrder { pair: usize },
    /// The tree has more levels than are allowed.
    TooTall,
}

impl ScratchFault {
    ghost use Rattle.prolly_entry.specs.FaultTexts.{shown_text};
    ghost use Rattle.prolly_file.specs.FaultTexts.{scratch_fault_text};

    /// What is said of it.
    fn text(self) -> FaultText
        ensures { shown_text result ≡ scratch_fault_text self }
    {
        match self {
            ScratchFault::Memory => FaultText::Plain("out of memory"),
            ScratchFault::OutOfOrder { pair } => {
                FaultText::Holding("pair ", pair as u64, ": key out of order")
            }
            ScratchFault::TooTall => FaultText::Plain("tree too tall"),
        }
    }
}

impl Display for ScratchFault {
    ghost use Rattle.std.specs.Prelude.{Some};
    ghost use Rattle.prolly_file.specs.FaultTexts.{scratch_fault_text};

    ghost output = { λ fault. Some (scratch_fault_text fault) };

    fn fmt<W: fmt::Write>(&self, f: &mut Formatter<W>) -> fmt::Result {
        self.text().fmt(f)
    }
}

impl Error for ScratchFault {}

impl From<AllocError> for ScratchFault {
    ghost use Rattle.prolly_file.specs.declared.scratch_build.ScratchFault.TheVariants.{Memory};

    ghost from_gives = { λ _ fault. fault ≡ Memory };

    fn from(_: AllocError) -> Self {
        ScratchFault::Memory
    }
}

/// Appends the chunk file, of version One, of the map that the pairs are, and answers the reference
/// of its root. See [`scratch_as`].
pub fn scratch<C: Cut>(
    alloc: Global,
    cut: C,
    pairs: &[Pair],
    max_levels: u8,
    out: &mut Vec<u8>,
) -> Result<Ref, ScratchFault>
    ensures { IsScratched (C.cut cut) One pairs.now max_levels out.old.items out.new.items result }
{
    scratch_as(alloc, cut, Version::One, pairs, max_levels, out)
}

/// Appends the chunk file of the map that the pairs are, and answers the reference of its root.
/// Where a pair is out of order, the first one is told, before want of memory and a tree that has
/// more than `max_levels` levels. After an `Err` the vector is as it was.
///
/// Hashes each entry and each chunk once. Beside the file it holds the chunks, in blocks that have
/// nearly as much room again. It makes room for the whole file at once.
pub fn scratch_as<C: Cut>(
    alloc: Global,
    cut: C,
    version: Version,
    pairs: &[Pair],
    max_levels: u8,
    out: &mut Vec<u8>,
) -> Result<Ref, ScratchFault>
    ensures { IsScratched (C.cut cut) version pairs.now max_levels out.old.items out.new.items
        result }
{
    if let Some(pair) = first_fall(pairs) {
        return Err(ScratchFault::OutOfOrder { pair });
    }
    let chunks = all_chunks(alloc, cut, version, pairs, max_levels)?;
    let root = root_of(&chunks);
    append_file(out, version, cut.bits(), &chunks, &root)?;
    Ok(root)
}

/// The reference of the root, which is the last chunk.
fn root_of(chunks: &[ChunkEvent]) -> Ref
    requires { 0 < length chunks.now }
    ensures { (before : List Chunk) (root : Chunk) → chunks.now ≡ before ++ root ∷ [] →
        result.0 ≡ reference_of root.bytes }
{
    chunks[chunks.len() - 1].reference()
}

/// Appends a file of these chunks. An `Err` leaves the vector as it was.
pub(crate) fn append_file(
    out: &mut Vec<u8>,
    version: Version,
    bits: u8,
    chunks: &[ChunkEvent],
    root: &Ref,
) -> Result<(), AllocError>
    ensures ok { OnOk result (out.new.items ≡ out.old.items ++ (header version bits ++ flat_map
        frame chunks.now ++ end_record root.now.0 (length chunks.now))) }
    ensures err { OnErr result (out.new.items ≡ out.old.items) }
{
    let start = out.len();
    out.try_reserve_exact(file_size(chunks))?;
    let header = Header { version, bits }.to_bytes();
    let end = end_record(root, chunks.len() as u64);
    if append_parts(out, &header, chunks, &end).is_err() {
        out.truncate(start);
        return Err(AllocError);
    }
    Ok(())
}

/// How many bytes a file of these chunks has, or the greatest number where it has more.
fn file_size(chunks: &[ChunkEvent]) -> usize {
    let mut size = HEADER_SIZE + END_SIZE;
    for chunk in chunks {
        size = size.saturating_add(FRAME_START);
        size = size.saturating_add(chunk.bytes().len());
    }
    size
}

/// Appends a header, frames and an end; on refusal some of them.
fn append_parts(
    out: &mut Vec<u8>,
    header: &[u8],
    chunks: &[ChunkEvent],
    end: &[u8],
) -> Result<(), AllocError>
    ensures ok { OnOk result (out.new.items ≡
        out.old.items ++ (header.now ++ flat_map frame chunks.now ++ end.now)) }
    ensures err { take (length out.old.items) out.new.items ≡ out.old.items }
{
    out.extend_from_slice(header)?;
    for chunk in chunks {
        let bytes = chunk.bytes();
        out.extend_from_slice(&frame_start(bytes.len() as u64))?;
        out.extend_from_slice(bytes)?;
    }
    out.extend_from_slice(end)
}
