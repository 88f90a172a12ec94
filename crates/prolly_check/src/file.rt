//! A file that was checked, as look-ups see it.
ghost use Rattle.std.specs.Prelude.{◌≡◌, ◌<◌, ◌^◌, [], length, get_or};
ghost use Rattle.prolly_look_up.specs.HeldPairs.{pairs_held};
ghost use Rattle.prolly_check.specs.Chunks.{HasAt, IsIndex, HasFile, HasReference, content_of};
ghost use Rattle.prolly_look_up.specs.Content.{chunks_of, Content, root_bytes};
ghost use Rattle.prolly_check.specs.Numbers.{AreOfMap};
ghost use Rattle.prolly_chunk.specs.Missing.{chunks_size};

use crate::chunks::{Chunks, Index};
use prolly_entry::{Ref, Version};
use prolly_io::Header;
use prolly_look_up::Pairs;
use std::marker::Model;

/// A file that was checked: its header, its chunks, and how they are found by their references.
#[derive(Drop)]
pub(crate) struct CheckedFile<'a> {
    header: Header,
    chunks: Chunks<'a>,
    index: &'a Index,
}

// A file is seen as what it says.
impl<'a> Model for CheckedFile<'a> {
    ghost Value = { Content };

    ghost view = { λ f. content_of f.header f.chunks };

    ghost invariant = { λ f. HasFile (content_of f.header f.chunks)
        × (f.chunks ≡ chunks_of (content_of f.header f.chunks)) × IsIndex f.index.now f.chunks };
}

impl<'a> CheckedFile<'a> {
    /// The file that has these chunks.
    pub(crate) fn new(header: Header, chunks: Chunks<'a>, index: &'a Index) -> CheckedFile<'a>
        requires file { HasFile (content_of header chunks) }
        requires are { chunks ≡ chunks_of (content_of header chunks) }
        requires indexed { IsIndex index.now chunks }
        ensures is { result ≡ content_of header chunks.entry }
        ensures file { HasFile result }
    {
        CheckedFile {
            header,
            chunks,
            index,
        }
    }

    /// The version.
    pub(crate) fn version(&self) -> Version
        ensures { result ≡ self.now.version }
    {
        self.header.version
    }

    /// The number of bits.
    pub(crate) fn bits(&self) -> u8
        ensures { result ≡ self.now.bits }
    {
        self.header.bits
    }

    /// The chunks.
    pub(crate) fn chunks(&self) -> &Chunks<'a>
        ensures chunks { result.now ≡ chunks_of self.now }
        ensures tree { AreOfMap result.now }
        ensures small { chunks_size result.now < 2 ^ 64 }
    {
        &self.chunks
    }

    /// The number of chunks.
    pub(crate) fn len(&self) -> usize
        ensures count { result ≡ length (chunks_of self.now) }
        ensures file { HasFile self.now }
    {
        self.chunks.len()
    }

    /// The number of the root, which is the last chunk.
    pub(crate) fn root(&self) -> usize
        ensures within { result < length (chunks_of self.now) }
        ensures is { get_or (chunks_of self.now) result [] ≡ root_bytes self.now }
        ensures file { HasFile self.now }
    {
        self.chunks.len() - 1
    }

    /// The chunk of this number.
    pub(crate) fn chunk(&self, number: usize) -> &'a [u8]
        requires { number < length (chunks_of self.now) }
        ensures { result.now ≡ get_or (chunks_of self.now) number [] }
    {
        self.chunks.chunk(number)
    }

    /// The pairs of the chunk of this number. A node has none.
    pub(crate) fn pairs(&self, number: usize) -> Pairs<'a>
        requires { number < length (chunks_of self.now) }
        ensures { result ≡ pairs_held (get_or (chunks_of self.now) number []) }
    {
        self.chunks.pairs(number)
    }

    /// The number of the chunk that has the reference.
    pub(crate) fn child(&self, reference: &Ref) -> usize
        requires { HasReference (chunks_of self.now) reference.now.0 }
        ensures { HasAt (chunks_of self.now) result reference.now.0 }
    {
        match self.index.find(reference) {
            Some(number) => number,
            None => unreachable!(),
        }
    }
}
