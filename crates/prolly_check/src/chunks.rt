//! The chunks of a file that was checked, and the order of their references.
ghost use Rattle.std.specs.Prelude.{◌≡◌, ℕ, ◌<◌, List, [], get_or, length, None, IfOk};
ghost use Rattle.std.specs.Prelude.{IfErr, MatchOption, OnOk, option_map};
ghost use Rattle.std.specs.List.{AllByRecursion};
ghost use Rattle.prolly_look_up.specs.HeldPairs.{pairs_held};
ghost use Rattle.prolly_check.specs.Frames.{IsWithin, chunks_in};
ghost use Rattle.prolly_check.specs.Digests.{AreNamed};
ghost use Rattle.prolly_look_up.specs.Entries.{AreWhole};
ghost use Rattle.prolly_look_up.specs.Way.{level_of};
ghost use Rattle.prolly_check.specs.Chunks.{AreNumbered, AreReferences, HasAt, IsIndex};
ghost use Rattle.prolly_check.specs.FirstFault.{reuse};
ghost use Rattle.prolly_check.specs.Verdict.{UnlessMemory};

use crate::verdict::{CheckFault, ChunkDigest, ChunksAhead, chunk_at};
use prolly_entry::Ref;
use prolly_io::Header;
use prolly_look_up::{Pairs, pairs_of};
use std::alloc::{AllocError, Global};
use std::marker::Model;
use std::ops::Range;

/// What is known of a file whose frames were found and whose entries were tested: its header, and
/// where its chunks lie in its bytes.
#[derive(Drop)]
pub(crate) struct Layout {
    pub(crate) header: Header,
    pub(crate) spans: Vec<Range<usize>>,
}

/// The chunks of such a file: its bytes, and its layout.
#[derive(Drop)]
pub(crate) struct Chunks<'a> {
    bytes: &'a [u8],
    layout: &'a Layout,
}

impl<'a> Model for Chunks<'a> {
    ghost Value = { List (List ℕ) };

    ghost view = { λ c. chunks_in c.bytes.now c.layout.now.spans.items };

    ghost invariant = { λ c. AllByRecursion (IsWithin c.bytes.now) c.layout.now.spans.items
        × AreWhole c.layout.now.header.version
        (chunks_in c.bytes.now c.layout.now.spans.items) };
}

impl<'a> Chunks<'a> {
    /// The chunks that lie there. Takes no memory.
    pub(crate) fn new(bytes: &'a [u8], layout: &'a Layout) -> Chunks<'a>
        requires within { AllByRecursion (IsWithin bytes.now) layout.now.spans.items }
        requires whole { AreWhole layout.now.header.version
            (chunks_in bytes.now layout.now.spans.items) }
        ensures { result ≡ chunks_in bytes.now layout.now.spans.items }
    {
        Chunks { bytes, layout }
    }

    /// The number of chunks.
    pub(crate) fn len(&self) -> usize
        ensures { result ≡ length self.now }
    {
        self.layout.spans.len()
    }

    /// The chunk of this number, counted from 0.
    pub(crate) fn chunk(&self, number: usize) -> &'a [u8]
        requires { number < length self.now }
        ensures { result.now ≡ get_or self.now number [] }
    {
        chunk_at(self.bytes, &self.layout.spans[number])
    }

    /// The level of the chunk of this number.
    pub(crate) fn level(&self, number: usize) -> u8
        requires { number < length self.now }
        ensures { result ≡ level_of (get_or self.now number []) }
    {
        chunk_at(self.bytes, &self.layout.spans[number])[0]
    }

    /// The pairs of the chunk of this number. A node has none.
    pub(crate) fn pairs(&self, number: usize) -> Pairs<'a>
        requires { number < length self.now }
        ensures { result ≡ pairs_held (get_or self.now number []) }
    {
        pairs_of(self.layout.header.version, self.chunk(number))
    }

    /// The chunks from this number on, with their digests.
    pub(crate) fn ahead<'b>(&self, digests: &'b [ChunkDigest], first: usize) -> ChunksAhead<'a, 'b>
        requires { AreNamed self.now digests.now }
    {
        ChunksAhead::new(self.bytes, &self.layout.spans, digests, first)
    }
}

/// How chunks are found by their references: the reference of each and its number, in the order of
/// the references.
#[derive(Drop)]
pub(crate) struct Index {
    entries: Vec<(Ref, usize)>,
}

impl Index {
    /// The index of all chunks, by the reference of each; or the first chunk whose reference an
    /// earlier one has too.
    ///
    /// Takes memory for a copy of each reference, and time O(n log n) for n chunks. Only where two
    /// chunks have one reference, it takes time O(n²) to tell which is the first.
    pub(crate) fn new(alloc: Global, references: &[Ref]) -> Result<Index, CheckFault>
        ensures index { (chunks : List (List ℕ)) → AreReferences chunks references.now →
            IfOk result (λ index. IsIndex index chunks) }
        ensures apart { (chunks : List (List ℕ)) → AreReferences chunks references.now →
            OnOk result (reuse [] 0 chunks ≡ None) }
        ensures err { (chunks : List (List ℕ)) → AreReferences chunks references.now →
            IfErr result (UnlessMemory (λ fault. reuse [] 0 chunks ≡ Some fault)) }
    {
        let mut entries = numbered(alloc, references)?;
        entries.sort_unstable_by_key(|entry| entry.0);
        if !entries.is_sorted_by(|one, next| one.0.cmp(&next.0).is_lt()) {
            if let Some(chunk) = first_reused(references) {
                return Err(CheckFault::Collision { chunk });
            }
        }
        Ok(Index { entries })
    }

    /// The number of the chunk that has the reference, or none. Takes no memory, and time O(log n).
    pub(crate) fn find(&self, reference: &Ref) -> Option<usize>
        ensures { (chunks : List (List ℕ)) → IsIndex self.now chunks →
            MatchOption result ((number : ℕ) → HasAt chunks number reference.now.0 → ⊥)
            (λ number. HasAt chunks number reference.now.0) }
    {
        match self
            .entries
            .binary_search_by_key(reference, |entry| entry.0)
        {
            Ok(offset) => Some(self.entries[offset].1),
            Err(_) => None,
        }
    }
}

/// The references with their numbers.
fn numbered(alloc: Global, references: &[Ref]) -> Result<Vec<(Ref, usize)>, AllocError>
    ensures { IfOk result (λ entries. AreNumbered references.now entries.items) }
{
    let mut entries = Vec::with_capacity(alloc, references.len())?;
    for (number, reference) in references.iter().enumerate() {
        entries.push((*reference, number))?;
    }
    Ok(entries)
}

/// The first number whose reference an earlier one has too.
fn first_reused(references: &[Ref]) -> Option<usize>
    ensures { (chunks : List (List ℕ)) → AreReferences chunks references.now →
        reuse [] 0 chunks ≡ option_map CheckFault.Collision result }
{
    for (number, reference) in references.iter().enumerate() {
        if references[..number].contains(reference) {
            return Some(number);
        }
    }
    None
}
