//! Writing the proof of what a map has at the keys of a set.
ghost use Rattle.std.specs.Prelude.{◌≡◌, ◌++◌, ◌∷◌, ◌⊎◌, [], List, None, Some, true, map};
ghost use Rattle.std.specs.Prelude.{option_map};
ghost use Rattle.std.specs.Prelude.{IfErr, IfOk, OnErr};
ghost use Rattle.std.specs.Prelude.{OnOk};
ghost use Rattle.prolly_look_up.specs.Content.{Content};
ghost use Rattle.prolly_entry.specs.Cut.{sha512_cut};
ghost use Rattle.prolly_io.specs.Sink.{IsSettled};
ghost use Rattle.prolly_root.specs.ChunkFile.{ChunkFile, file_fault};
ghost use Rattle.prolly_root.specs.ChunkSource.{GoesOverStill, HasAsked, GoesOverTree};
ghost use Rattle.prolly_root.specs.RootFault.{IsOrFails, MayFail};
ghost use Rattle.prolly_tree.specs.File.{root_reference};
ghost use Rattle.prolly_range.specs.KeySet.{set_of};
ghost use Rattle.prolly_range.specs.Prover.{MayFailTo, ProvesNext, TellsSink};
ghost use Rattle.prolly_range.specs.Prover.{TellsSource};
ghost use Rattle.prolly_range.specs.Prover.{WritesPart, WritesProof, WritesRest, located_due};
ghost use Rattle.prolly_range.specs.FirstFault.{DueAt, TellsSetFault, root_at};
ghost use Rattle.prolly_range.specs.SetProof.{root_due, set_start};
ghost use Rattle.prolly_range.specs.Places.{EachStandsAs, TellsNext, TellsRest};
ghost use Rattle.prolly_range.specs.ToGo.{ComesNearer};

use crate::due::Due;
use crate::key_set::KeySet;
use crate::laws::lawful_files_have_proofs;
use crate::located::{Located, put_first};
use crate::prove_fault::ProveFault;
use crate::start::set_start;
use prolly_entry::{Ref, Version};
use prolly_io::{Sink, write_all, write_frame};
use prolly_root::{ChunkSource, RootFault};
use std::alloc::{AllocError, Global};
use std::collections::VecDeque;

/// Writes the proof of what the tree with this root has at the keys of the set, and flushes the
/// sink. Whatever the source gives, what is written is such a proof: see
/// [`laws::set_proofs_are_right`](crate::laws::set_proofs_are_right). Of a chunk file the first
/// fault is told: see [`laws::set_faults_are_one`](crate::laws::set_faults_are_one). The tree that
/// the source has is never refused.
///
/// Takes memory for one chunk at a time, and for the references of the children in which keys are
/// sought of the nodes above it. Reads each chunk of the proof once.
pub fn prove_set<S: ChunkSource, W: Sink>(
    alloc: Global,
    source: &mut S,
    version: Version,
    root: &Ref,
    set: KeySet<'_>,
    sink: &mut W,
) -> Result<(), ProveFault>
    ensures proves { OnOk result (WritesProof version root.now.0 (set_of set.entry)
        (W.seen sink.old) (W.seen sink.new)) }
    ensures settled { OnOk result (IsSettled (W.seen sink.new)) }
    ensures keeping { (W.seen sink.old).is_keeping ≡ true → (W.seen sink.new).is_keeping ≡ true }
    ensures part { OnErr result (WritesPart version (root_due root.now.0 (set_of set.entry) ∷ [])
        (set_start version) (W.seen sink.old) (W.seen sink.new)) }

    // A lawful tree with this root is never refused, and a failed read or write is told.
    ensures lawful { (content : Content) → GoesOverTree S.goes_over source.old content →
        version ≡ content.version →
        root.now.0 ≡ root_reference (sha512_cut content.bits) content.version content.pairs →
        IfErr result MayFailTo }

    // Of a chunk file of any bytes what is wrong first is told.
    ensures tells { (file : ChunkFile) → S.goes_over source.old file →
        TellsSetFault version file root.now.0 (set_of set.entry) result }
    ensures goes { GoesOverStill S.goes_over source.old source.new }
    ensures reads { TellsSource (S.failures source.old) (S.failures source.new) result }
    ensures writes { TellsSink (W.seen sink.old).failures (W.seen sink.new).failures result }
{
    // By this law a lawful file has no fault.
    lawful_files_have_proofs();
    let mut due = whole_tree(alloc, source, version, root, set)?;
    write_all(sink, &set_start(version))?;
    write_chunks(alloc, source, version, &mut due, sink)?;
    sink.flush()?;
    Ok(())
}

/// The whole tree is due.
fn whole_tree<'a, T: Copy + Drop, S: ChunkSource<Place = T>>(
    alloc: Global,
    source: &mut S,
    version: Version,
    root: &Ref,
    set: KeySet<'a>,
) -> Result<VecDeque<Located<'a, T>>, RootFault>
    ensures due { IfOk result (λ due.
        map located_due due.items ≡ root_due root.now.0 (set_of set.entry) ∷ []) }
    ensures tells { (file : ChunkFile) → S.goes_over source.old file → IsOrFails (λ due.
        (file_fault version file ≡ None) × EachStandsAs S.stands file due.items
        (root_at file root.now.0 (set_of set.entry) ∷ []))
        (λ fault. MayFail fault ⊎ (file_fault version file ≡ Some fault)) result }
    ensures asked { HasAsked S.goes_over S.failures source.old source.new result }
{
    let place = source.root(version)?;
    let due = Due {
        reference: *root,
        above: None,
        set,
    };
    Ok(one_due(alloc, Located { due, place })?)
}

/// This one alone is due.
fn one_due<'a, T: Copy + Drop>(
    alloc: Global,
    located: Located<'a, T>,
) -> Result<VecDeque<Located<'a, T>>, AllocError>
    ensures { IfOk result (λ due. due.items ≡ located.entry ∷ []) }
{
    let mut due = VecDeque::new(alloc);
    due.push_front(located)?;
    Ok(due)
}

/// Writes the frames of all chunks that are due, one after another.
fn write_chunks<'a, T: Copy + Drop, S: ChunkSource<Place = T>, W: Sink>(
    alloc: Global,
    source: &mut S,
    version: Version,
    due: &mut VecDeque<Located<'a, T>>,
    sink: &mut W,
) -> Result<(), ProveFault>
    ensures rest { OnOk result (WritesRest version (map located_due due.old.items)
        (W.seen sink.old) (W.seen sink.new)) }
    ensures part { OnErr result (WritesPart version (map located_due due.old.items) []
        (W.seen sink.old) (W.seen sink.new)) }
    ensures keeping { (W.seen sink.old).is_keeping ≡ true → (W.seen sink.new).is_keeping ≡ true }
    ensures tells { (file : ChunkFile) (at : List DueAt) → S.goes_over source.old file →
        EachStandsAs S.stands file due.old.items at → TellsRest version file at result }
    ensures goes { GoesOverStill S.goes_over source.old source.new }
    ensures reads { TellsSource (S.failures source.old) (S.failures source.new) result }
    ensures writes { TellsSink (W.seen sink.old).failures (W.seen sink.new).failures result }
{
    while let Some(chunk) = next_chunk(alloc, source, version, due)? {
        write_frame(sink, &chunk)?;
    }
    Ok(())
}

/// The next chunk of a proof, or none where nothing is due.
fn next_chunk<'a, T: Copy + Drop, S: ChunkSource<Place = T>>(
    alloc: Global,
    source: &mut S,
    version: Version,
    due: &mut VecDeque<Located<'a, T>>,
) -> Result<Option<Vec<u8>>, RootFault>
    ensures proves { IfOk result (λ chunk. ProvesNext version (map located_due due.old.items)
        (option_map (λ c. c.items) chunk) (map located_due due.new.items)) }
    ensures nearer { IfOk result (λ chunk. ComesNearer (map located_due due.old.items) chunk
        (map located_due due.new.items)) }
    ensures tells { (file : ChunkFile) (at : List DueAt) → S.goes_over source.old file →
        EachStandsAs S.stands file due.old.items at →
        TellsNext S.stands version file at due.new.items result }
    ensures asked { HasAsked S.goes_over S.failures source.old source.new result }
{
    let Some(first) = due.pop_front() else {
        return Ok(None);
    };
    let chunk = first.read(alloc, source, version)?;
    let below = first.below(alloc, source, version, &chunk)?;
    put_first(due, below)?;
    Ok(Some(chunk))
}
