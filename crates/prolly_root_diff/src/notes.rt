//! What is noted of the chunks that a walk reads.
ghost use Rattle.std.specs.Prelude.{◌≡◌, ◌≤◌, ◌^◌, [], OnOk, IfSome, IfErr, None};
ghost use Rattle.std.specs.Cmp.Lexicographic.{slice_cmp};
ghost use Rattle.std.specs.List.{list_any, sum_by};
ghost use Rattle.std.specs.List.Sorted.{IsSortedByKey};
ghost use Rattle.std.specs.Ordering.{nat_cmp};
ghost use Rattle.std.specs.Str.{bytes_eq};
ghost use Rattle.prolly_root_diff.specs.Notes.{AddsNew, AddsOld, AreOf, unknown_of};

use prolly_chunk::Missing;
use prolly_entry::Ref;
use std::alloc::{AllocError, Global};

/// What is noted of a chunk.
#[derive(Clone, Copy)]
pub(crate) struct Note {
    pub(crate) reference: Ref,
    /// How many bytes it has.
    pub(crate) length: u64,
}

/// What is noted of the chunks that were read, in the order of reading.
#[derive(Drop)]
pub(crate) struct Notes {
    /// The references of those of the old tree.
    old: Vec<Ref>,
    /// Those of the new tree.
    new: Vec<Note>,
}

impl Notes {
    /// Nothing is noted yet.
    pub(crate) fn none(alloc: Global) -> Notes
        ensures old { result.old.items ≡ [] }
        ensures new { result.new.items ≡ [] }
    {
        Notes {
            old: Vec::new(alloc),
            new: Vec::new(alloc),
        }
    }

    /// How many chunks of the new tree are noted whose references none of the old tree has, and how
    /// many bytes these have; none where these are 2^64 or more. Sorts the references, and looks
    /// each up.
    pub(crate) fn missing(&mut self) -> Option<Missing>
        ensures some { IfSome result (AreOf (unknown_of self.entry.now)) }
        ensures none { result ≡ None → 2 ^ 64 ≤ sum_by (λ n. n.length) self.entry.now.new.items }
    {
        self.old.sort_unstable();
        let mut missing = Missing {
            chunks: 0,
            bytes: 0,
        };
        for note in &self.new {
            if !has(&self.old, &note.reference) {
                missing.chunks += 1;
                missing.bytes = missing.bytes.checked_add(note.length)?;
            }
        }
        Some(missing)
    }
}

/// Whether the reference is one of these, which are in order.
fn has(sorted: &[Ref], reference: &Ref) -> bool
    requires { IsSortedByKey (λ r. r.0) (slice_cmp nat_cmp) sorted.now }
    ensures { result ≡ list_any (λ r. bytes_eq r.0 reference.now.0) sorted.now }
{
    sorted.binary_search(reference).is_ok()
}

/// Notes a chunk of the old tree, where notes are taken.
pub(crate) fn note_old(notes: &mut Option<Notes>, chunk: Note) -> Result<(), AllocError>
    ensures { OnOk result (AddsOld chunk notes.old notes.new) }
{
    match notes {
        None => Ok(()),
        Some(notes) => Ok(notes.old.push(chunk.reference)?),
    }
}

/// Notes a chunk of the new tree, where notes are taken.
pub(crate) fn note_new(notes: &mut Option<Notes>, chunk: Note) -> Result<(), AllocError>
    ensures { OnOk result (AddsNew chunk notes.old notes.new) }
{
    match notes {
        None => Ok(()),
        Some(notes) => Ok(notes.new.push(chunk)?),
    }
}
