//! What is told of the chunks of a file by who has hashed them, one thread or many.
ghost use Rattle.std.specs.Prelude.{◌≡◌, ◌<◌, ◌≤◌, ⊤, [], true, false, get_or, length, map, take};
ghost use Rattle.std.specs.Prelude.{IfOk};
ghost use Rattle.std.specs.List.{AllByRecursion};
ghost use Rattle.std.specs.Thread.{IsSync};
ghost use Rattle.prolly_check.specs.Digests.{AreDigestsOf, EachHas, Tells};
ghost use Rattle.prolly_check.specs.Frames.{IsWithin, chunks_in};

use crate::verdict::frames::chunk_at;
use crate::verdict::pairs_digest::PairsDigest;
use prolly_entry::{REFERENCE_SIZE, Ref, Sha512Cut, Version};
use prolly_look_up::ManyThreads;
use std::alloc::{AllocError, Global};
use std::ops::Range;
use std::thread::{Threads, for_each_mut};

/// What is told of a chunk.
#[derive(Clone, Copy)]
pub struct ChunkDigest {
    /// Whether the chunk is a level and whole lawful entries of that level's kind. If it is not, the
    /// rest tells nothing.
    pub is_whole: bool,
    /// The reference of the chunk.
    pub reference: Ref,
    /// What its pairs tell.
    pub pairs: PairsDigest,
}

impl ChunkDigest {
    /// Of a chunk. Takes a hash of the chunk, if it is whole, and of a leaf one of each pair up to
    /// the first boundary.
    fn of(cut: Sha512Cut, version: Version, chunk: &[u8]) -> ChunkDigest
        ensures { Tells version cut chunk.now result }
    {
        let Some(pairs) = PairsDigest::of(cut, version, chunk) else {
            return ChunkDigest::of_none();
        };
        ChunkDigest {
            is_whole: true,
            reference: Ref::of(chunk),
            pairs,
        }
    }

    /// Of a chunk that is not whole, or of which nothing is known yet.
    fn of_none() -> ChunkDigest
        ensures { result.is_whole ≡ false }
    {
        ChunkDigest {
            is_whole: false,
            reference: Ref([0; REFERENCE_SIZE]),
            pairs: PairsDigest::of_none(0),
        }
    }
}

/// Who hashes the chunks of a file: one thread, or many.
pub trait ChunkHasher {
    /// What threads need of the handle for them.
    ghost can_hash: { Self → Type 0 };

    /// The digests of the chunks that lie there, up to the first that is not a level and whole lawful
    /// entries of that level's kind. Takes a hash of each chunk and, of a leaf, one of each pair up to
    /// its first boundary.
    fn digests(
        &self,
        alloc: Global,
        cut: Sha512Cut,
        version: Version,
        bytes: &[u8],
        spans: &[Range<usize>],
    ) -> Result<Vec<ChunkDigest>, AllocError>
        requires can { can_hash self.now }
        requires within { AllByRecursion (IsWithin bytes.now) spans.now }
        ensures { IfOk result (λ digests.
            AreDigestsOf version cut (chunks_in bytes.now spans.now) digests.items) };
}

/// The thread that checks a file hashes its chunks.
#[derive(Clone, Copy)]
pub struct OneThread;

impl ChunkHasher for OneThread {
    ghost can_hash = { λ _. ⊤ };

    fn digests(
        &self,
        alloc: Global,
        cut: Sha512Cut,
        version: Version,
        bytes: &[u8],
        spans: &[Range<usize>],
    ) -> Result<Vec<ChunkDigest>, AllocError> {
        digests_of(alloc, cut, version, bytes, spans)
    }
}

impl<'a, R: Threads + Sync> ChunkHasher for ManyThreads<'a, R> {
    ghost can_hash = { λ _. IsSync R.row };

    fn digests(
        &self,
        alloc: Global,
        cut: Sha512Cut,
        version: Version,
        bytes: &[u8],
        spans: &[Range<usize>],
    ) -> Result<Vec<ChunkDigest>, AllocError> {
        let count = self.count_for(bytes.len());
        let mut digests = told_in_threads(self.rt, count, alloc, cut, version, bytes, spans)?;
        digests.truncate(whole_count(&digests));
        Ok(digests)
    }
}

/// The digests of the chunks up to the first that is not whole, one after another.
fn digests_of(
    alloc: Global,
    cut: Sha512Cut,
    version: Version,
    bytes: &[u8],
    spans: &[Range<usize>],
) -> Result<Vec<ChunkDigest>, AllocError>
    requires { AllByRecursion (IsWithin bytes.now) spans.now }
    ensures { IfOk result (λ digests.
        AreDigestsOf version cut (chunks_in bytes.now spans.now) digests.items) }
{
    let mut digests = Vec::with_capacity(alloc, spans.len())?;
    for number in 0..spans.len() {
        let digest = digest_at(cut, version, bytes, spans, number);
        if !digest.is_whole {
            return Ok(digests);
        }
        digests.push(digest)?;
    }
    Ok(digests)
}

/// What is told of each chunk, by so many threads. The memory for all is taken first, so no thread
/// takes any.
fn told_in_threads<R: Threads + Sync>(
    rt: &R,
    threads: usize,
    alloc: Global,
    cut: Sha512Cut,
    version: Version,
    bytes: &[u8],
    spans: &[Range<usize>],
) -> Result<Vec<ChunkDigest>, AllocError>
    requires threads { 0 < threads }
    requires within { AllByRecursion (IsWithin bytes.now) spans.now }
    ensures { IfOk result (λ told.
        EachHas (Tells version cut) (chunks_in bytes.now spans.now) told.items) }
{
    let mut told = Vec::new(alloc);
    told.resize(spans.len(), ChunkDigest::of_none())?;
    let tell = |number: usize, told: &mut ChunkDigest|
        requires { (number < length spans.now) × AllByRecursion (IsWithin bytes.now) spans.now }
        ensures { Tells version cut
            (get_or (chunks_in bytes.entry.now spans.entry.now) number []) told.exit.now }
    { *told = digest_at(cut, version, bytes, spans, number) };
    for_each_mut(rt, told.as_mut_slice(), threads, &tell);
    Ok(told)
}

/// What is told of the chunk of this number.
fn digest_at(
    cut: Sha512Cut,
    version: Version,
    bytes: &[u8],
    spans: &[Range<usize>],
    number: usize,
) -> ChunkDigest
    requires number { number < length spans.now }
    requires within { AllByRecursion (IsWithin bytes.now) spans.now }
    ensures { Tells version cut (get_or (chunks_in bytes.now spans.now) number []) result }
{
    ChunkDigest::of(cut, version, chunk_at(bytes, &spans[number]))
}

/// How many chunks there are before the first one that is not whole.
fn whole_count(told: &[ChunkDigest]) -> usize
    ensures few { result ≤ length told.now }
    ensures whole { AllByRecursion (λ digest. digest.is_whole ≡ true) (take result told.now) }
    ensures bad { (other : ChunkDigest) → result < length told.now →
        (get_or told.now result other).is_whole ≡ false }
{
    for number in 0..told.len() {
        if !told[number].is_whole {
            return number;
        }
    }
    told.len()
}

/// The references of chunks, of which these are the digests.
pub(crate) fn references_of(alloc: Global, digests: &[ChunkDigest]) -> Result<Vec<Ref>, AllocError>
    ensures { IfOk result (λ references.
        references.items ≡ map (λ digest. digest.reference) digests.now) }
{
    let mut references = Vec::with_capacity(alloc, digests.len())?;
    for digest in digests {
        references.push(digest.reference)?;
    }
    Ok(references)
}
