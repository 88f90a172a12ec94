//! Reading a chunk of which nothing is believed.
ghost use Rattle.std.specs.Prelude.{◌≡◌, ◌⊎◌, ℕ, IfOk, IfErr, OnOk};
ghost use Rattle.prolly_look_up.specs.Way.{FallsTo, IsNamed};
ghost use Rattle.prolly_root.specs.ChunkFile.{ChunkFile, nth_in};
ghost use Rattle.prolly_root.specs.ChunkSource.{HasAsked};
ghost use Rattle.prolly_root.specs.LookUpFault.{IsFaultOfChunk};
ghost use Rattle.prolly_root.specs.RootFault.{IsOrFails, MayFail};

use crate::chunk_source::ChunkSource;
use crate::root_fault::RootFault;
use prolly_entry::{Ref, Version};
use prolly_look_up::{falls_to, test_chunk};
use std::alloc::Global;

/// The chunk that stands in this place, where it is the one that is due there: it has the reference,
/// is a level and whole lawful entries of that level's kind, whose keys rise, and stands one level
/// below `above`, where there is a chunk above it.
///
/// Takes memory for the chunk, and time linear in its length, but not where the source has tested it.
pub fn tested_chunk<S: ChunkSource>(
    alloc: Global,
    source: &mut S,
    version: Version,
    reference: &Ref,
    above: Option<u8>,
    place: &S::Place,
) -> Result<Vec<u8>, RootFault>
    ensures named { IfOk result (λ chunk. IsNamed version reference.now.0 chunk.items) }
    ensures falls { IfOk result (λ chunk. FallsTo above chunk.items) }

    // Of a file of any bytes it is told what is wrong first with the chunk that stands there.
    ensures tells { (file : ChunkFile) (n from : ℕ) → S.goes_over source.old file →
        S.stands file place.now n from → IsOrFails (λ chunk. chunk.items ≡ nth_in file n)
        (λ fault. MayFail fault ⊎
        IsFaultOfChunk version reference.now.0 above (nth_in file n) n fault) result }
    ensures asked { HasAsked S.goes_over S.failures source.old source.new result }
{
    let chunk = source.chunk(alloc, place)?;
    if !chunk.is_named(version, reference) || !falls_to(above, chunk.as_bytes()) {
        test(
            version,
            chunk.as_bytes(),
            reference,
            above,
            S::number(place),
        )?;
    }
    Ok(chunk.into_bytes())
}

/// Tests whether the chunk of this number is the one that is due.
fn test(
    version: Version,
    chunk: &[u8],
    reference: &Ref,
    above: Option<u8>,
    number: u64,
) -> Result<(), RootFault>
    ensures named { OnOk result (IsNamed version reference.now.0 chunk.now) }
    ensures falls { OnOk result (FallsTo above chunk.now) }
    ensures fault { IfErr result
        (IsFaultOfChunk version reference.now.0 above chunk.now number) }
    ensures read { IfErr result (λ fault. fault ≡ RootFault.Read → ⊥) }
{
    match test_chunk(version, chunk, reference, above) {
        Ok(()) => Ok(()),
        Err(flaw) => Err(RootFault::of_flaw(flaw, number)),
    }
}
