//! The chunks that are due, and where they stand.
ghost use Rattle.std.specs.Prelude.{◌≡◌, ◌<◌, ◌-◌, ◌++◌, ◌∷◌, ◌⊎◌, ℕ, [], map, IfOk, OnOk};
ghost use Rattle.prolly_look_up.specs.Entries.{IsWhole};
ghost use Rattle.prolly_look_up.specs.Kinds.{kind_of};
ghost use Rattle.prolly_look_up.specs.Way.{FallsTo, IsNamed, level_of};
ghost use Rattle.prolly_root.specs.ChunkFile.{ChunkFile, nth_in};
ghost use Rattle.prolly_root.specs.ChunkSource.{HasAsked};
ghost use Rattle.prolly_root.specs.LookUpFault.{IsFaultOfChunk};
ghost use Rattle.prolly_root.specs.RootFault.{IsOrFails, MayFail};
ghost use Rattle.prolly_range.specs.Children.{met_of};
ghost use Rattle.prolly_range.specs.Dues.{seen_due};
ghost use Rattle.prolly_range.specs.KeySet.{set_of};
ghost use Rattle.prolly_range.specs.Prover.{located_due};
ghost use Rattle.prolly_range.specs.FirstFault.{numbers_met};
ghost use Rattle.prolly_range.specs.SetProof.{due_below};
ghost use Rattle.prolly_range.specs.Places.{AreFound, MayLack};

use crate::children::{ChildMet, children_met};
use crate::due::Due;
use prolly_entry::Version;
use prolly_look_up::LEAF;
use prolly_root::{ChunkSource, RootFault, tested_chunk};
use std::alloc::{AllocError, Global};
use std::collections::VecDeque;

/// A chunk that is due, and where it stands.
#[derive(Clone, Copy)]
pub(crate) struct Located<'a, T> {
    pub(crate) due: Due<'a>,
    pub(crate) place: T,
}

impl<'a, T: Copy + Drop> Located<'a, T> {
    /// Reads the chunk.
    pub(crate) fn read<S: ChunkSource<Place = T>>(
        &self,
        alloc: Global,
        source: &mut S,
        version: Version,
    ) -> Result<Vec<u8>, RootFault>
        ensures named { IfOk result (λ chunk.
            IsNamed version self.now.due.reference.0 chunk.items) }
        ensures falls { IfOk result (λ chunk. FallsTo self.now.due.above chunk.items) }
        ensures tells { (file : ChunkFile) (n from : ℕ) → S.goes_over source.old file →
            S.stands file self.now.place n from → IsOrFails (λ chunk. chunk.items ≡ nth_in file n)
            (λ fault. MayFail fault ⊎ IsFaultOfChunk version self.now.due.reference.0
            self.now.due.above (nth_in file n) n fault) result }
        ensures asked { HasAsked S.goes_over S.failures source.old source.new result }
    {
        let Due {
            reference,
            above,
            set: _,
        } = self.due;
        tested_chunk(alloc, source, version, &reference, above, &self.place)
    }

    /// What is due below the chunk, which has these bytes and was tested.
    pub(crate) fn below<S: ChunkSource<Place = T>>(
        self,
        alloc: Global,
        source: &mut S,
        version: Version,
        chunk: &[u8],
    ) -> Result<VecDeque<Located<'a, T>>, RootFault>
        requires { IsWhole version chunk.now }
        ensures due { IfOk result (λ found. map located_due found.items ≡
            due_below (level_of chunk.now) (set_of self.entry.due.set) (kind_of version chunk.now)) }
        ensures tells { (file : ChunkFile) (n from : ℕ) → S.goes_over source.old file →
            S.stands file self.entry.place n from → chunk.now ≡ nth_in file n →
            IsOrFails (λ found. AreFound S.stands file (level_of (nth_in file n) - 1) from
            (numbers_met (set_of self.entry.due.set) (kind_of version (nth_in file n))) found.items)
            (MayLack file (level_of (nth_in file n) - 1) from
            (numbers_met (set_of self.entry.due.set) (kind_of version (nth_in file n)))) result }
        ensures asked { HasAsked S.goes_over S.failures source.old source.new result }
    {
        if chunk[0] == LEAF {
            return Ok(VecDeque::new(alloc));
        }
        let met = children_met(alloc, version, &chunk[1..], self.due.set)?;
        locate(alloc, source, chunk[0], self.place, met)
    }
}

/// Finds where these children of a node stand, which has this level and stands in this place.
fn locate<'a, T: Copy + Drop, S: ChunkSource<Place = T>>(
    alloc: Global,
    source: &mut S,
    level: u8,
    mut place: T,
    mut met: VecDeque<ChildMet<'a>>,
) -> Result<VecDeque<Located<'a, T>>, RootFault>
    requires { 0 < level }
    ensures due { IfOk result (λ found.
        map located_due found.items ≡ map (seen_due level) (map met_of met.entry.items)) }
    ensures tells { (file : ChunkFile) (n from : ℕ) → S.goes_over source.old file →
        S.stands file place n from → level ≡ level_of (nth_in file n) →
        IsOrFails (λ found. AreFound S.stands file (level - 1) from
        (map (λ m. m.number) (map met_of met.entry.items)) found.items)
        (MayLack file (level - 1) from (map (λ m. m.number) (map met_of met.entry.items))) result }
    ensures asked { HasAsked S.goes_over S.failures source.old source.new result }
{
    let mut found = VecDeque::new(alloc);
    while let Some(child) = met.pop_front() {
        let there = source.child(&mut place, level - 1, child.number)?;
        let located = Located {
            due: Due::below(level, &child),
            place: there,
        };
        keep(&mut found, located)?;
    }
    Ok(found)
}

/// Adds one behind the others.
fn keep<'a, T: Copy + Drop>(
    found: &mut VecDeque<Located<'a, T>>,
    located: Located<'a, T>,
) -> Result<(), AllocError>
    ensures { OnOk result (found.new.items ≡ found.old.items ++ located.entry ∷ []) }
{
    found.push_back(located)?;
    Ok(())
}

/// Puts these before the others.
pub(crate) fn put_first<'a, T: Copy + Drop>(
    due: &mut VecDeque<Located<'a, T>>,
    mut first: VecDeque<Located<'a, T>>,
) -> Result<(), AllocError>
    ensures { OnOk result (due.new.items ≡ first.entry.items ++ due.old.items) }
{
    while let Some(last) = first.pop_back() {
        due.push_front(last)?;
    }
    Ok(())
}
