//! The chunks of a file, of which no more is read than is asked for.
ghost use Rattle.std.specs.Prelude.{◌≡◌, ℕ, drop, take, true, IfOk, IfSome, List, None};
ghost use Rattle.std.specs.List.{AllByRecursion};
ghost use Rattle.prolly_look_up.specs.Content.{Content};
ghost use Rattle.prolly_root.specs.ChunkFile.{ChunkFile, HoldsChunks, nth_in};
ghost use Rattle.prolly_root.specs.ChunkSource.{GoesOverTree};
ghost use Rattle.prolly_root.specs.ReadAhead.{IsPartOf};
ghost use Rattle.prolly_root.specs.RootFault.{IsOrFails, MayFail};
ghost use Rattle.prolly_root.specs.Walk.{HasRead, HoldsFile, IsFrame, IsWalk};
ghost use Rattle.prolly_root.specs.declared.file.walk.Walk.{Walk};

use crate::chunk_source::ChunkSource;
use crate::file::fetched::{Fetched, fetch_leaves, test_leaves};
use crate::file::marks::Marks;
use crate::file::subtree::{Place, Subtree};
use crate::file::walk::{Frame, Walk};
use crate::given_chunk::GivenChunk;
use crate::read_ahead::ReadAhead;
use crate::root_fault::RootFault;
use prolly_entry::Version;
use prolly_io::{CHUNK_LIMIT, Device};
use prolly_look_up::{LEAF, ManyThreads};
use std::alloc::Global;
use std::thread::Threads;

/// How many bytes of leaves are read ahead at first. Each next time it is twice as many, so that who
/// asks for a few leaves reads few in vain.
const FIRST_BYTES: usize = 65_536;

/// How many bytes of leaves are read ahead at most.
const MOST_BYTES: usize = 16_777_216;

/// Gives the chunks of a chunk file. Nothing of the file is believed, nor is it checked.
///
/// The root is the last chunk, so to find it takes ten bytes of each frame. On the way some marks
/// are remembered. To find a child takes ten bytes of each frame from the nearest of these marks
/// on, or from the child of the same node that was found last. Only to read a chunk takes memory,
/// as much as the chunk has bytes; a chunk longer than [`CHUNK_LIMIT`] is told as want of memory.
///
/// It [reads leaves ahead](ReadAhead::read_ahead), 64 KiB of them at first and 16 MiB at most. Threads
/// test them, no more than one for each 64 KiB. Where one of them can't be had, that is told when it
/// is due, but a failed read at once.
#[derive(Drop)]
pub struct FileChunks<D> {
    device: D,
    /// The marks that were remembered on the way to the root.
    marks: Option<Marks>,
    /// The boundary behind the leaf that was given last.
    behind: Option<Walk>,
    /// The leaves that were read ahead. The next one stands last.
    ahead: Option<Vec<Fetched>>,
    /// How many bytes of leaves are read ahead the next time.
    window: usize,
}

impl<D: Device> FileChunks<D> {
    /// The chunks of the file that this device holds. Nothing of it is read yet.
    pub fn new(device: D) -> FileChunks<D>
        ensures failures { ⟦<FileChunks<D> as ChunkSource>⟧.failures result ≡
            (D.seen device).failures }
        ensures has { (content : Content) → HoldsFile (D.seen device) content →
            GoesOverTree ⟦<FileChunks<D> as ChunkSource>⟧.goes_over result content }
        ensures goes { (file : ChunkFile) → HoldsChunks (D.seen device) file →
            ⟦<FileChunks<D> as ChunkSource>⟧.goes_over result file }
    {
        FileChunks {
            device,
            marks: None,
            behind: None,
            ahead: None,
            window: FIRST_BYTES,
        }
    }

    /// The device. What was remembered of its file is forgotten.
    pub fn into_device(self) -> D
        ensures failures { (D.seen result).failures ≡
            ⟦<FileChunks<D> as ChunkSource>⟧.failures self }
        ensures has { (content : Content) →
            GoesOverTree ⟦<FileChunks<D> as ChunkSource>⟧.goes_over self content →
            HoldsFile (D.seen result) content }
        ensures goes { (file : ChunkFile) → ⟦<FileChunks<D> as ChunkSource>⟧.goes_over self file →
            HoldsChunks (D.seen result) file }
    {
        self.device
    }

    /// Whether a leaf is left that was read ahead.
    fn is_ahead(&self) -> bool {
        match &self.ahead {
            Some(ahead) => !ahead.is_empty(),
            None => false,
        }
    }

    /// Takes the leaf that stands there, where it is the next of those that were read ahead. Where it
    /// is another one, who asks goes elsewhere, and none of the others is of use.
    fn take(&mut self, place: &Place) -> Option<GivenChunk>
        ensures leaf { (bytes : List ℕ) →
            IfSome self.old.ahead (λ ahead. AllByRecursion (IsPartOf bytes) ahead.items) →
            IfSome result (λ leaf.
            leaf ≡ take place.now.frame.len (drop place.now.frame.start bytes)) }
        ensures ahead { (bytes : List ℕ) →
            IfSome self.old.ahead (λ ahead. AllByRecursion (IsPartOf bytes) ahead.items) →
            IfSome self.new.ahead (λ ahead. AllByRecursion (IsPartOf bytes) ahead.items) }
        ensures file { (self.new.device ≡ self.old.device) × (self.new.marks ≡ self.old.marks) }
    {
        let frame = &place.frame;
        if frame.level != LEAF {
            return None;
        }
        self.behind = Some(place.below.behind(frame));
        let ahead = self.ahead.as_mut()?;
        let next = ahead.pop()?;
        if next.frame.start == frame.start && next.frame.len == frame.len {
            return Some(next.chunk);
        }
        ahead.clear();
        None
    }
}

impl<D: Device> ChunkSource for FileChunks<D> {
    ghost use Rattle.std.specs.List.{AllByRecursion};
    ghost use Rattle.std.proofs.Common.{sym, ◌∙◌};
    ghost use Rattle.std.specs.Prelude.{IfSome};
    ghost use Rattle.prolly_root.specs.ReadAhead.{IsPartOf};
    ghost use Rattle.prolly_root.specs.Subtree.{AreOnePlace, HasChunksOf, StandsThere};

    type Place = Subtree;

    ghost failures = { λ source. (D.seen source.device).failures };

    ghost goes_over = { λ source file. HasChunksOf (D.seen source.device) source.marks file ×
        IfSome source.ahead (λ ahead. AllByRecursion (IsPartOf file.bytes) ahead.items) };

    ghost stands = { StandsThere };

    ghost are_one = { AreOnePlace };

    ghost one = { λ file place other n from m below same here there.
        (sym here.number_is ∙ same.0 ∙ there.number_is, sym here.from_is ∙ same.1 ∙ there.from_is) };

    fn root(&mut self, version: Version) -> Result<Subtree, RootFault> {
        let below = Walk::begin(&mut self.device, version)?;
        let (frame, marks) = below.last(&mut self.device)?;
        self.marks = Some(marks);
        Ok(Subtree {
            top: Place { frame, below },
            last: None,
        })
    }

    fn child(&mut self, node: &mut Subtree, level: u8, number: u64) -> Result<Subtree, RootFault> {
        let top = node.child(&mut self.device, &self.marks, level, number)?;
        Ok(Subtree { top, last: None })
    }

    fn chunk(&mut self, alloc: Global, place: &Subtree) -> Result<GivenChunk, RootFault> {
        if let Some(leaf) = self.take(&place.top) {
            return Ok(leaf);
        }
        let chunk = read_chunk(alloc, &mut self.device, &place.top.frame)?;
        Ok(GivenChunk::new(chunk))
    }

    fn number(place: &Subtree) -> u64 {
        place.top.frame.number
    }

    fn is_same(place: &Subtree, other: &Subtree) -> bool {
        place.top.frame.number == other.top.frame.number
            && place.top.below.number == other.top.below.number
    }
}

impl<D: Device> ReadAhead for FileChunks<D> {
    fn read_ahead<R: Threads + Sync>(
        &mut self,
        hasher: &ManyThreads<'_, R>,
        alloc: Global,
        version: Version,
    ) -> Result<(), RootFault> {
        let Some(behind) = self.behind else {
            return Ok(());
        };
        if self.is_ahead() {
            return Ok(());
        }
        let mut ahead = fetch_leaves(alloc, &mut self.device, behind, self.window)?;
        test_leaves(hasher, version, ahead.as_mut_slice());
        self.ahead = Some(ahead);
        self.window = self.window.saturating_mul(2).min(MOST_BYTES);
        Ok(())
    }
}

/// The bytes of a chunk. For one that is longer than [`CHUNK_LIMIT`] memory is refused.
pub(crate) fn read_chunk<D: Device>(
    alloc: Global,
    device: &mut D,
    frame: &Frame,
) -> Result<Vec<u8>, RootFault>
    ensures read { HasRead (D.seen device.old) (D.seen device.new) result }
    ensures there { (D.seen device.old).is_honest ≡ true → IfOk result (λ chunk.
        chunk.items ≡ take frame.now.len (drop frame.now.start (D.seen device.old).bytes)) }
    ensures is { (file : ChunkFile) (walk : Walk) → HoldsChunks (D.seen device.old) file →
        IsWalk file walk → IsFrame file frame.now →
        IsOrFails (λ chunk. chunk.items ≡ nth_in file frame.now.number) MayFail result }
{
    if frame.len > CHUNK_LIMIT as u64 {
        return Err(RootFault::Memory);
    }
    let mut chunk = vec![in alloc; 0; frame.len as usize]?;
    let count = device.read_at(frame.start, &mut chunk)?;
    if count < chunk.len() {
        return Err(RootFault::Truncated);
    }
    Ok(chunk)
}
