//! A chunk on the way of a look-up by the root.
ghost use Rattle.std.specs.Prelude.{◌≡◌, ◌<◌, ◌↔◌, length, Ok, IfNone, IfOk, IfSome, IsTrue};
ghost use Rattle.prolly_look_up.specs.HeldPairs.{pairs_held};
ghost use Rattle.prolly_look_up.specs.Kinds.{kind_of};
ghost use Rattle.prolly_look_up.specs.PairsFrom.{IsLeft, pairs_from};
ghost use Rattle.prolly_look_up.specs.Sought.{EndsAt, IsChildOf, IsMark, sought_of};
ghost use Rattle.prolly_look_up.specs.Way.{FallsTo};
ghost use Rattle.prolly_root.specs.ChunkFile.{ChunkFile};
ghost use Rattle.prolly_root.specs.ChunkSource.{HasAsked};
ghost use Rattle.prolly_root.specs.Descent.{GoesOnAt, IsAt, IsAtDue, IsDueAt, IsKeptOf, IsOnward};
ghost use Rattle.prolly_root.specs.Descent.{IsTested};
ghost use Rattle.prolly_root.specs.LookUpFault.{HasDue, MayStop, Standing};
ghost use Rattle.prolly_root.specs.RootFault.{IsOrFails};

use crate::chunk_source::ChunkSource;
use crate::root_fault::RootFault;
use crate::tested::tested_chunk;
use prolly_entry::{Ref, Version};
use prolly_look_up::{ChildSought, Due, Mark, Pairs, Sought, falls_to, rest_from, step_of};
use std::alloc::Global;

/// What a look-up comes to at a chunk.
#[derive(Drop)]
pub(crate) enum Onward<'a, T> {
    /// It ends there.
    End,
    /// It goes on at the chunk that is due next, in this place.
    Below(Due<'a>, T),
}

/// A chunk on the way: one that has its reference and can be read.
#[derive(Drop)]
pub(crate) struct ChunkOnWay<T> {
    /// Its reference.
    pub(crate) reference: Ref,
    /// Where it stands.
    pub(crate) place: T,
    /// Its bytes.
    pub(crate) chunk: Vec<u8>,
    /// In a node: where the last look-up passed over the child before the one that it went to.
    mark: Mark,
    /// In a leaf: the mark of the last look-up. See [`rest_from`].
    left: usize,
}

impl<T: Copy> ChunkOnWay<T> {
    /// The chunk that is due in this place.
    fn read<S: ChunkSource<Place = T>>(
        alloc: Global,
        source: &mut S,
        version: Version,
        due: &Due<'_>,
        place: T,
    ) -> Result<ChunkOnWay<T>, RootFault>
        ensures is { IfOk result (IsAtDue version due.now) }
        ensures tells { (file : ChunkFile) (at : Standing) → S.goes_over source.old file →
            IsDueAt S.stands file due.now place at →
            IsOrFails (IsAt S.stands file at) (MayStop version file at) result }
        ensures asked { HasAsked S.goes_over S.failures source.old source.new result }
    {
        let reference = due.reference;
        let chunk = tested_chunk(alloc, source, version, &reference, due.above, &place)?;
        Ok(ChunkOnWay {
            reference,
            place,
            chunk,
            mark: Mark::first(),
            left: 0,
        })
    }

    /// Whether it is the one that is due.
    fn is_due(&self, due: &Due<'_>) -> bool
        requires { 0 < length self.now.chunk.items }
        ensures { IsTrue result ↔ ((self.now.reference ≡ due.now.reference) ×
            FallsTo due.now.above self.now.chunk.items) }
    {
        self.reference == due.reference && falls_to(due.above, &self.chunk)
    }

    /// Its pairs whose key is not less than `from`, and the mark that is kept of this look-up. A node
    /// has none.
    pub(crate) fn rest(&self, version: Version, from: &[u8]) -> (Pairs<'_>, usize)
        requires { IsTested version self.now }
        ensures pairs { result.0 ≡ pairs_from from.now (pairs_held self.now.chunk.items) }
        ensures left { IsLeft (pairs_held self.now.chunk.items) result.1 }
    {
        rest_from(version, &self.chunk, self.left, from)
    }

    /// The mark that is kept of a look-up which ends here.
    fn left_behind(&self, version: Version, sought: Sought<'_>) -> usize
        requires { IsTested version self.now }
        ensures { IsLeft (pairs_held self.now.chunk.items) result }
    {
        match sought {
            Sought::Key(key) => self.rest(version, key).1,
            Sought::Number(_) => self.left,
        }
    }

    /// The child in which a look-up goes on from here; none where it ends here.
    pub(crate) fn child<'a>(&self, version: Version, sought: Sought<'a>) -> Option<ChildSought<'a>>
        requires { IsTested version self.now }
        ensures on { IfSome result
            (IsChildOf (sought_of sought.entry) (kind_of version self.now.chunk.items)) }
        ensures ends { IfNone result
            (EndsAt (sought_of sought.entry) (kind_of version self.now.chunk.items)) }
        ensures passed { IfSome result
            (λ child. IsMark version self.now.chunk.items child.passed) }
    {
        step_of(version, &self.chunk, self.mark, sought)
    }

    /// What a look-up comes to here. See [`ChunkSource::child`] for what is read.
    pub(crate) fn step<'a, S: ChunkSource<Place = T>>(
        &mut self,
        source: &mut S,
        version: Version,
        sought: Sought<'a>,
    ) -> Result<Onward<'a, T>, RootFault>
        requires { IsTested version self.old }
        ensures is { IfOk result (IsOnward version (sought_of sought.entry) self.old.chunk.items) }
        ensures stays { (self.new.reference ≡ self.old.reference) ×
            (self.new.chunk ≡ self.old.chunk) }
        ensures level { IsTested version self.new }
        ensures tells { (file : ChunkFile) (at : Standing) → S.goes_over source.old file →
            IsAt S.stands file at self.old → HasDue version file at →
            at.sought ≡ sought_of sought.entry → IsAt S.stands file at self.new ×
            IsOrFails (GoesOnAt S.stands version file at) (MayStop version file at) result }
        ensures asked { HasAsked S.goes_over S.failures source.old source.new result }
    {
        let Some(child) = self.child(version, sought) else {
            self.left = self.left_behind(version, sought);
            return Ok(Onward::End);
        };
        self.mark = child.passed;
        let level = self.chunk[0];
        let place = source.child(&mut self.place, level - 1, child.number)?;
        let due = Due {
            reference: child.reference,
            above: Some(level),
            sought: child.sought,
        };
        Ok(Onward::Below(due, place))
    }
}

/// The chunk that is due in this place: the one that was kept, where that is it, or else it is read.
pub(crate) fn chunk_at<T: Copy + Drop, S: ChunkSource<Place = T>>(
    alloc: Global,
    source: &mut S,
    version: Version,
    kept: Option<ChunkOnWay<T>>,
    due: &Due<'_>,
    place: T,
) -> Result<ChunkOnWay<T>, RootFault>
    requires { IfSome kept (IsTested version) }
    ensures is { IfOk result (IsAtDue version due.now) }

    // What was kept of this place is not read again.
    ensures again { IfSome kept (λ chunk. IsAtDue version due.now chunk →
        S.are_one chunk.place place → (result ≡ Ok chunk) × (source.new ≡ source.old)) }
    ensures tells { (file : ChunkFile) (at : Standing) → S.goes_over source.old file →
        IfSome kept (IsKeptOf S.stands file) → IsDueAt S.stands file due.now place at →
        IsOrFails (IsAt S.stands file at) (MayStop version file at) result }
    ensures asked { HasAsked S.goes_over S.failures source.old source.new result }
{
    match kept {
        Some(chunk) if chunk.is_due(due) && S::is_same(&chunk.place, &place) => Ok(chunk),
        _another => ChunkOnWay::read(alloc, source, version, due, place),
    }
}
