//! The walk over two trees.
ghost use Rattle.std.specs.Prelude.{◌≡◌, ◌≤◌, ◌^◌, [], true, false, Err, None, Some, IfOk, IfErr};
ghost use Rattle.std.specs.Prelude.{OnErr, OnOk, IfSome};
ghost use Rattle.std.specs.List.{sum_by};
ghost use Rattle.std.specs.Option.{is_some};
ghost use Rattle.prolly_root_diff.specs.Notes.{AreNoted, TellsMissing};
ghost use Rattle.prolly_root_diff.specs.Sides.{left_of};
ghost use Rattle.prolly_root_diff.specs.ToGo.{ComesNearer};
ghost use Rattle.prolly_root_diff.specs.FileWalks.{TellsNew, TellsOld, TellsWalk};
ghost use Rattle.prolly_root_diff.specs.Walks.{IsBegun, lefts_of};
ghost use Rattle.prolly_root_diff.specs.declared.notes.Notes.{Notes as NotesValue};

use crate::change::RootChange;
use crate::fault::RootDiffFault;
use crate::laws::walks_are_right;
use crate::notes::{Notes, note_new, note_old};
use crate::onward::{Onward, way_onward};
use crate::side::Side;
use prolly_chunk::Missing;
use prolly_entry::{Ref, Version};
use prolly_root::ChunkSource;
use std::alloc::{AllocError, Global};
use std::marker::Model;

/// The changes that are left between the maps of two trees, in the order of their keys. The chunks
/// of both come from a [`ChunkSource`] each, which are lent to each call.
///
/// Taken together the changes are the difference of any two maps with these roots, unless a chunk of
/// their trees has the reference of a different chunk, which was read or is one of the trees, too:
/// see [`laws::walks_are_right`](crate::laws::walks_are_right). That holds whatever the sources do.
/// What is read of a chunk file stands in it. Of chunk files of any bytes the first fault is told. A
/// lawful file has none: see [`laws::walks_tell_one_fault`](crate::laws::walks_tell_one_fault).
///
/// Memory is taken for a leaf of each tree, and for the references of the children of the nodes
/// above it. A chunk is read where the other tree has not the same one in its place, and once. So
/// these are the chunks that the other tree lacks, and now and then one beside them; a change wants
/// at most those on its way down, and those beside it.
#[derive(Drop)]
pub struct RootDifferences<T, U> {
    version: Version,
    before: Side<T>,
    after: Side<U>,
    /// Whether a call failed.
    stopped: bool,
    /// What was read, where that is asked for.
    notes: Option<Notes>,
}

impl<T, U> Model for RootDifferences<T, U> {
    ghost use Rattle.prolly_root_diff.specs.Walks.{Walk};

    ghost Value = { Walk T U };

    ghost view = { λ d. record {
      version = d.version;
      before = d.before;
      after = d.after;
      stopped = d.stopped;
      notes = d.notes;
    } };
}

impl<T: Copy + Drop, U: Copy + Drop> RootDifferences<T, U> {
    /// What turns the map of the one root into that of the other. Both roots, and the version of
    /// the chunks, come from who is trusted. Trees of different bits will do.
    ///
    /// Nothing is read yet, and nothing will be noted.
    pub fn new(
        alloc: Global,
        version: Version,
        old: &Ref,
        new: &Ref,
    ) -> Result<RootDifferences<T, U>, AllocError>
        ensures begun { IfOk result (IsBegun version old.now.0 new.now.0) }
        ensures silent { IfOk result (λ walk. walk.notes ≡ None) }
    {
        Ok(RootDifferences {
            version,
            before: Side::of_root(alloc, old)?,
            after: Side::of_root(alloc, new)?,
            stopped: false,
            notes: None,
        })
    }

    /// The same, and each chunk that is read will be noted for [`missing`](Self::missing). That
    /// takes 20 bytes of memory for a chunk of the old tree, and 32 for one of the new tree.
    pub fn noting(
        alloc: Global,
        version: Version,
        old: &Ref,
        new: &Ref,
    ) -> Result<RootDifferences<T, U>, AllocError>
        ensures begun { IfOk result (IsBegun version old.now.0 new.now.0) }
        ensures notes { IfOk result (λ walk. is_some walk.notes ≡ true) }
        ensures noted { IfOk result (λ walk. AreNoted [] walk.notes) }
    {
        let mut walk = RootDifferences::new(alloc, version, old, new)?;
        walk.notes = Some(Notes::none(alloc));
        Ok(walk)
    }

    /// The next change, or none where the rest of both maps is the same. After that there is none
    /// at each further call. `old` gives chunks of the one tree, and `new` of the other.
    ///
    /// After an `Err` nothing more is told: each further call fails, and reads nothing.
    pub fn next<S: ChunkSource<Place = T>, R: ChunkSource<Place = U>>(
        &mut self,
        alloc: Global,
        old: &mut S,
        new: &mut R,
    ) -> Result<Option<RootChange>, RootDiffFault>
        ensures version { self.new.version ≡ self.old.version }
        ensures nearer { IfOk result (λ change. ComesNearer (lefts_of self.old) change
            (lefts_of self.new)) }
        ensures stops { OnErr result (self.new.stopped ≡ true) }
        ensures goes_on { OnOk result (self.new.stopped ≡ false) }
        ensures stopped { self.old.stopped ≡ true → (result ≡ Err RootDiffFault.Stopped) ×
            (old.new ≡ old.old) × (new.new ≡ new.old) }
        ensures only { IfErr result (λ fault. fault ≡ RootDiffFault.Stopped →
            self.old.stopped ≡ true) }
        ensures notes { OnOk result (is_some self.new.notes ≡ is_some self.old.notes) }

        // One way tells what is given and noted, and what was read of the files that the sources go
        // over. Where it stops, it is told what is wrong first with these files. A failed read is
        // told.
        ensures walks { TellsWalk S.goes_over S.stands R.goes_over R.stands self.old.version
            old.old new.old self.old.before self.new.before self.old.after self.new.after
            self.old.notes self.new.notes result }
        ensures old { TellsOld S.goes_over S.failures old.old old.new result }
        ensures new { TellsNew R.goes_over R.failures new.old new.new result }
    {
        if self.stopped {
            return Err(RootDiffFault::Stopped);
        }
        self.stopped = true;
        let change = next_change(
            alloc,
            old,
            new,
            self.version,
            &mut self.before,
            &mut self.after,
            &mut self.notes,
        )?;
        self.stopped = false;
        Ok(change)
    }

    /// What is missing: how many chunks of the new tree have a reference that no chunk of the old
    /// one has, and how many bytes these are. It is asked for after the last change, and not of
    /// what was read alone: the walk may read a chunk in the one tree before it finds it in the
    /// other.
    ///
    /// None where nothing is noted; and where of the new tree 2^64 bytes or more were read. Takes no
    /// memory, and time O(n log m) for n chunks that were read of the new tree and m of the old.
    pub fn missing(&mut self) -> Option<Missing>
        ensures are { IfSome result (TellsMissing self.old.version (lefts_of self.old)
            self.old.notes) }
        ensures none { result ≡ None → (notes : NotesValue) → self.old.notes ≡ Some notes →
            2 ^ 64 ≤ sum_by (λ n. n.length) notes.new.items }
        ensures stays { (self.new.version ≡ self.old.version) ×
            (lefts_of self.new ≡ lefts_of self.old) × (self.new.stopped ≡ self.old.stopped) }
        ensures still { is_some self.new.notes ≡ is_some self.old.notes }
    {
        // By this law what was noted tells what is missing.
        walks_are_right();
        match &mut self.notes {
            None => None,
            Some(notes) => notes.missing(),
        }
    }
}

/// The next change between two trees, or none where what is left of both is the same.
fn next_change<
    T: Copy + Drop,
    U: Copy + Drop,
    S: ChunkSource<Place = T>,
    R: ChunkSource<Place = U>,
>(
    alloc: Global,
    old: &mut S,
    new: &mut R,
    version: Version,
    before: &mut Side<T>,
    after: &mut Side<U>,
    notes: &mut Option<Notes>,
) -> Result<Option<RootChange>, RootDiffFault>
    ensures nearer { IfOk result (λ change. ComesNearer
        (record { before = left_of before.old; after = left_of after.old }) change
        (record { before = left_of before.new; after = left_of after.new })) }
    ensures only { IfErr result (λ fault. fault ≡ RootDiffFault.Stopped → ⊥) }
    ensures notes { OnOk result (is_some notes.new ≡ is_some notes.old) }
    ensures walks { TellsWalk S.goes_over S.stands R.goes_over R.stands version old.old new.old
        before.old before.new after.old after.new notes.old notes.new result }
    ensures old { TellsOld S.goes_over S.failures old.old old.new result }
    ensures new { TellsNew R.goes_over R.failures new.old new.new result }
{
    'walk: loop {
        match way_onward(before, after) {
            Onward::Pass => {
                before.pass_first()?;
                after.pass_first()?;
            }
            Onward::OpenOld => match before.open_first(alloc, old, version) {
                Ok(chunk) => note_old(notes, chunk)?,
                Err(fault) => return Err(RootDiffFault::Old(fault)),
            },
            Onward::OpenNew => match after.open_first(alloc, new, version) {
                Ok(chunk) => note_new(notes, chunk)?,
                Err(fault) => return Err(RootDiffFault::New(fault)),
            },
            Onward::Skip => {
                before.pass_pair();
                after.pass_pair();
            }
            Onward::Removed => return Ok(Some(RootChange::Removed(before.take(alloc)?))),
            Onward::Added => return Ok(Some(RootChange::Added(after.take(alloc)?))),
            Onward::Changed => {
                let old = before.take(alloc)?;
                return Ok(Some(RootChange::Changed(old, after.take(alloc)?)));
            }
            Onward::End => return Ok(None),
        }
    }
}
