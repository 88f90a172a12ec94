//! Going down by the root, from each chunk to the one that it refers to.
ghost use Rattle.std.specs.Prelude.{◌≡◌, ◌-◌, [], ◌∷◌, ◌++◌, length, map, IfOk, OnOk};
ghost use Rattle.std.specs.List.{AllByRecursion};
ghost use Rattle.prolly_look_up.specs.Sought.{sought_of};
ghost use Rattle.prolly_root.specs.ChunkFile.{ChunkFile};
ghost use Rattle.prolly_root.specs.ChunkSource.{HasAsked};
ghost use Rattle.prolly_root.specs.Descent.{IsDescent, IsKeptOf, IsTested, chunks_on_way};
ghost use Rattle.prolly_root.specs.LookUpFault.{ComesToEnd, MayTell};
ghost use Rattle.prolly_root.specs.RootFault.{IsOrFails};

use crate::chunk_source::ChunkSource;
use crate::look_up::chunk_on_way::{ChunkOnWay, Onward, chunk_at};
use crate::root_fault::RootFault;
use prolly_entry::{Ref, Version};
use prolly_look_up::{Due, Sought};
use std::alloc::{AllocError, Global};

/// The way down from the root to the chunk at which a look-up ends.
#[derive(Drop)]
pub(crate) struct Descent<'a, T> {
    /// The chunks, of which the root is the first.
    pub(crate) levels: Vec<ChunkOnWay<T>>,
    /// What is sought in the last one.
    pub(crate) sought: Sought<'a>,
}

/// The bytes of these chunks.
pub(crate) fn chunks_of<T>(
    alloc: Global,
    levels: &[ChunkOnWay<T>],
) -> Result<Vec<&[u8]>, AllocError>
    ensures { IfOk result (λ chunks.
        map (λ chunk. chunk.now) chunks.items ≡ chunks_on_way levels.now) }
{
    let mut chunks = Vec::new(alloc);
    for level in levels {
        chunks.push(level.chunk.as_slice())?;
    }
    Ok(chunks)
}

/// Goes down from the root, which stands in the place `top`, to the chunk at which the look-up
/// ends. Chunks that were kept from another descent are not read again, as far as both go the same
/// way.
///
/// Of the source one chunk a level is read. Takes memory for these chunks.
pub(crate) fn go_down<'a, T: Copy + Drop, S: ChunkSource<Place = T>>(
    alloc: Global,
    source: &mut S,
    version: Version,
    root: &Ref,
    top: T,
    kept: Vec<ChunkOnWay<T>>,
    sought: Sought<'a>,
) -> Result<Descent<'a, T>, RootFault>
    requires { AllByRecursion (IsTested version) kept.items }
    ensures found { IfOk result (IsDescent version root.now.0 (sought_of sought.entry)) }
    ensures tells { (file : ChunkFile) → S.goes_over source.old file →
        S.stands file top (length file.chunks - 1) 0 →
        AllByRecursion (IsKeptOf S.stands file) kept.items → IsOrFails (λ descent.
        AllByRecursion (IsKeptOf S.stands file) descent.levels.items ×
        ComesToEnd version file root.now.0 (sought_of sought.entry))
        (MayTell version file root.now.0 (sought_of sought.entry)) result }
    ensures asked { HasAsked S.goes_over S.failures source.old source.new result }
{
    let mut kept = kept.into_iter();
    let mut levels = Vec::new(alloc);
    let mut due = Due {
        reference: *root,
        above: None,
        sought,
    };
    let mut place = top;
    loop {
        let mut chunk = chunk_at(alloc, source, version, kept.next(), &due, place)?;
        let onward = chunk.step(source, version, due.sought)?;
        keep(&mut levels, chunk)?;
        match onward {
            Onward::End => {
                return Ok(Descent {
                    levels,
                    sought: due.sought,
                });
            }
            Onward::Below(next, there) => {
                due = next;
                place = there;
            }
        }
    }
}

/// Adds a chunk below the others.
fn keep<T: Drop>(levels: &mut Vec<ChunkOnWay<T>>, chunk: ChunkOnWay<T>) -> Result<(), AllocError>
    ensures { OnOk result (levels.new.items ≡ levels.old.items ++ chunk ∷ []) }
{
    levels.push(chunk)?;
    Ok(())
}
