//! What a tree has, in numbers: its pairs, the bytes of its chunks, its levels, and what who has
//! another tree lacks of it.
ghost use Rattle.std.specs.Prelude.{◌≡◌, ◌<◌, ◌^◌, ℕ, List, length, map, sum, IfOk};
ghost use Rattle.prolly_check.specs.Chunks.{AreReferences, IsIndex};
ghost use Rattle.prolly_check.specs.Numbers.{AreLevels, AreOfMap, IsLevel, at_level};
ghost use Rattle.prolly_chunk.specs.Missing.{AreSo, lacking, chunks_size};

use crate::chunks::{Chunks, Index};
use crate::look_up::Leaves;
use prolly_chunk::{LevelStats, Missing};
use prolly_entry::Ref;
use std::alloc::{AllocError, Global};

/// How many pairs are left. Takes no memory.
pub(crate) fn count_pairs(mut leaves: Leaves) -> u64
    requires { length leaves < 2 ^ 64 }
    ensures { result ≡ length leaves.entry }
{
    let mut count = 0;
    while let Some(leaf) = leaves.next() {
        let (_, pairs) = leaf.last_key_and_count();
        count += pairs;
    }
    count
}

/// How many bytes the chunks have together. Takes no memory.
pub(crate) fn size_in(chunks: &Chunks) -> u64
    requires { chunks_size chunks.now < 2 ^ 64 }
    ensures { result ≡ chunks_size chunks.now }
{
    let mut size = 0;
    for number in 0..chunks.len() {
        size += chunks.chunk(number).len() as u64;
    }
    size
}

/// The levels of the chunks of a file, from the leaves to the root, which is the last chunk.
/// Takes memory for the sizes of one level's chunks at a time, and goes over the chunks for each.
pub(crate) fn levels_in(alloc: Global, chunks: &Chunks) -> Result<Vec<LevelStats>, AllocError>
    requires tree { AreOfMap chunks.now }
    requires small { chunks_size chunks.now < 2 ^ 64 }
    ensures { IfOk result (λ levels. AreLevels chunks.now levels.items) }
{
    let root = chunks.len() - 1;
    let mut levels = Vec::new(alloc);
    for number in 0..=chunks.level(root) {
        let sizes = sizes_at(alloc, number, chunks)?;
        levels.push(numbers_of(sizes))?;
    }
    Ok(levels)
}

/// The sizes of the chunks of a level, in their order. Takes memory for the sizes, and reads one
/// byte of each chunk.
fn sizes_at(alloc: Global, level: u8, chunks: &Chunks) -> Result<Vec<u64>, AllocError>
    ensures { IfOk result (λ sizes. sizes.items ≡ map length (at_level level chunks.now)) }
{
    let mut sizes = Vec::new(alloc);
    for number in 0..chunks.len() {
        if chunks.level(number) == level {
            sizes.push(chunks.chunk(number).len() as u64)?;
        }
    }
    Ok(sizes)
}

/// The numbers of chunks that have these sizes. Takes time O(n log n).
fn numbers_of(mut sizes: Vec<u64>) -> LevelStats
    requires some { 0 < length sizes.items }
    requires small { sum sizes.items < 2 ^ 64 }
    ensures { (chunks : List (List ℕ)) → map length chunks ≡ sizes.items → IsLevel chunks result }
{
    let bytes = sizes.iter().sum();
    sizes.sort_unstable();
    let count = sizes.len();
    LevelStats {
        chunks: count as u64,
        bytes,
        least: sizes[0],
        middle: sizes[count / 2],
        greatest: sizes[count - 1],
    }
}

/// The chunks whose references the index lacks. Takes no memory and no hash, and looks each
/// reference up.
pub(crate) fn missing_in(index: &Index, chunks: &Chunks, references: &[Ref]) -> Missing
    requires small { chunks_size chunks.now < 2 ^ 64 }
    requires references { AreReferences chunks.now references.now }
    ensures { (others : List (List ℕ)) → IsIndex index.now others →
        AreSo (lacking others chunks.now) result }
{
    let mut missing = Missing {
        chunks: 0,
        bytes: 0,
    };
    for number in 0..chunks.len() {
        if index.find(&references[number]).is_none() {
            missing.chunks += 1;
            missing.bytes += chunks.chunk(number).len() as u64;
        }
    }
    missing
}
