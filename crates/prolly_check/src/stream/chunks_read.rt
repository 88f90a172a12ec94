//! The chunks of a file that were read so far.
ghost use Rattle.std.specs.Prelude.{◌≡◌, ◌≢◌, ◌<◌, ◌≤◌, ◌^◌, ◌+◌, ℕ, List, [], true, false, length};
ghost use Rattle.std.specs.Prelude.{get_or, IfErr, IfOk, OnOk, MatchResult};
ghost use Rattle.std.specs.List.{AllByRecursion};
ghost use Rattle.std.specs.Option.{option_map};
ghost use Rattle.prolly_io.specs.Frame.{has_no_frame};
ghost use Rattle.prolly_check.specs.ChunksRead.{AreRead, BodyRead, EndsChunks, EndsRecord};
ghost use Rattle.prolly_check.specs.ChunksRead.{GoesOver, TakesChunk};
ghost use Rattle.prolly_check.specs.Digests.{AreDigests, IsDigest};
ghost use Rattle.prolly_check.specs.Frames.{IsWithin, chunks_in};
ghost use Rattle.prolly_check.specs.FirstFault.{last_behind, rises_behind};
ghost use Rattle.prolly_check.specs.FirstFlaw.{IsBodyFault};
ghost use Rattle.prolly_check.specs.Follower.{IsAlike};
ghost use Rattle.prolly_look_up.specs.HeldPairs.{pairs_held};

use crate::stream::incoming::let_go;
use crate::verdict::{
    CheckFault, ChunkDigest, ChunkHasher, ChunksAhead, Follower, chunk_at, find_frames, last_in,
};
use prolly_entry::{Ref, Sha512Cut, Version};
use prolly_io::{END_LETTER, END_SIZE, FRAME_LETTER, end_record};
use std::alloc::{AllocError, Global};
use std::ops::Range;

/// What is kept of the chunks of a file that were read so far: which must follow, how many they
/// are, their last key, and the reference of the last one.
#[derive(Drop)]
pub(crate) struct ChunksRead {
    follower: Follower,
    count: usize,
    last_key: Option<Vec<u8>>,
    reference: Ref,
}

impl ChunksRead {
    /// Before the first chunk.
    pub(crate) fn new(
        alloc: Global,
        cut: Sha512Cut,
        version: Version,
    ) -> Result<ChunksRead, AllocError>
        ensures { IfOk result (λ read. AreRead [] read × (read.follower.cut ≡ cut) ×
            (read.follower.version ≡ version)) }
    {
        Ok(ChunksRead {
            follower: Follower::new(alloc, cut, version)?,
            count: 0,
            last_key: None,
            reference: Ref::of(&[]),
        })
    }

    /// Takes the next chunk, or tells its flaw. After an `Err` this is
    /// of no use.
    fn take(
        &mut self,
        alloc: Global,
        chunk: &[u8],
        digest: ChunkDigest,
        next: &ChunksAhead,
    ) -> Result<(), CheckFault>
        requires digest { IsDigest self.old.follower.version self.old.follower.cut chunk.now digest }
        requires few { self.old.count + 1 < 2 ^ 64 }
        ensures takes { TakesChunk self.old self.new chunk.now result }
        ensures unread { IfErr result (λ fault. fault ≢ CheckFault.Read) }
        ensures alike { IsAlike self.old.follower self.new.follower }
        ensures count { OnOk result (self.new.count ≡ self.old.count + 1) }
    {
        let number = self.count;
        if !self.rises_to(alloc, chunk, digest)? {
            return Err(CheckFault::KeysOutOfOrder { chunk: number });
        }
        self.follower.take(alloc, number, chunk, digest, next)?;
        self.count = number + 1;
        self.reference = digest.reference;
        Ok(())
    }

    /// Takes the chunks whose whole frames begin these bytes, and lets the frames go. Answers whether
    /// there are some. `size` is the size of all frames that were taken.
    pub(crate) fn take_frames<H: ChunkHasher>(
        &mut self,
        hasher: &H,
        alloc: Global,
        bytes: &mut Vec<u8>,
        size: &mut u64,
    ) -> Result<bool, CheckFault>
        requires can { H.can_hash hasher.now }
        requires few { (self.old.count ≤ size.old) × (size.old < 2 ^ 64) }
        ensures takes { (body left : List ℕ) →
            BodyRead body bytes.old.items left self.old size.old → MatchResult result
            (λ some. BodyRead body bytes.new.items left self.new size.new)
            (IsBodyFault self.old.follower.version self.old.follower.cut body) }
        ensures few { OnOk result ((self.new.count ≤ size.new) × (size.new < 2 ^ 64)) }
        ensures some { IfOk result (λ some. some ≡ true → size.old < size.new) }
        ensures none { IfOk result (λ some. some ≡ false →
            (bytes.new.items ≡ bytes.old.items) × (has_no_frame bytes.new.items ≡ true)) }
        ensures unread { IfErr result (λ fault. fault ≢ CheckFault.Read) }
        ensures alike { IsAlike self.old.follower self.new.follower }
    {
        let frames = find_frames(alloc, bytes, 0)?;
        if frames.spans.len() == 0 {
            return Ok(false);
        }
        let Some(sum) = size.checked_add(frames.end as u64) else {
            return Err(CheckFault::TooLong);
        };
        *size = sum;
        self.go_over(hasher, alloc, bytes, &frames.spans)?;
        let_go(bytes, frames.end);
        Ok(true)
    }

    /// Takes the chunks that lie there, up to the first that has a flaw.
    ///
    /// `hasher` goes over all of them before the first one is taken: a chunk is hashed once, and of a
    /// leaf each pair up to its first boundary.
    fn go_over<H: ChunkHasher>(
        &mut self,
        hasher: &H,
        alloc: Global,
        bytes: &[u8],
        spans: &[Range<usize>],
    ) -> Result<(), CheckFault>
        requires can { H.can_hash hasher.now }
        requires within { AllByRecursion (IsWithin bytes.now) spans.now }
        requires few { self.old.count + length spans.now < 2 ^ 64 }
        ensures over { GoesOver self.old self.new (chunks_in bytes.now spans.now) result }
        ensures unread { IfErr result (λ fault. fault ≢ CheckFault.Read) }
        ensures alike { IsAlike self.old.follower self.new.follower }
        ensures count { OnOk result (self.new.count ≡ self.old.count + length spans.now) }
    {
        let (cut, version) = (self.follower.cut, self.follower.version);
        let digests = hasher.digests(alloc, cut, version, bytes, spans)?;
        let count = digests.len();
        self.take_hashed(alloc, bytes, &spans[..count], &digests)?;
        if count < spans.len() {
            return Err(CheckFault::BadChunk { chunk: self.count });
        }
        Ok(())
    }

    /// Takes the chunks that lie there, which have these digests.
    fn take_hashed(
        &mut self,
        alloc: Global,
        bytes: &[u8],
        spans: &[Range<usize>],
        digests: &[ChunkDigest],
    ) -> Result<(), CheckFault>
        requires within { AllByRecursion (IsWithin bytes.now) spans.now }
        requires digests { AreDigests self.old.follower.version self.old.follower.cut
            (chunks_in bytes.now spans.now) digests.now }
        requires few { self.old.count + length spans.now < 2 ^ 64 }
        ensures over { GoesOver self.old self.new (chunks_in bytes.now spans.now) result }
        ensures unread { IfErr result (λ fault. fault ≢ CheckFault.Read) }
        ensures alike { IsAlike self.old.follower self.new.follower }
        ensures count { OnOk result (self.new.count ≡ self.old.count + length spans.now) }
    {
        for number in 0..spans.len() {
            self.take_one(alloc, bytes, spans, digests, number)?;
        }
        Ok(())
    }

    /// Takes the chunk of this number of those that lie there, which have these digests.
    fn take_one(
        &mut self,
        alloc: Global,
        bytes: &[u8],
        spans: &[Range<usize>],
        digests: &[ChunkDigest],
        number: usize,
    ) -> Result<(), CheckFault>
        requires within { AllByRecursion (IsWithin bytes.now) spans.now }
        requires digests { AreDigests self.old.follower.version self.old.follower.cut
            (chunks_in bytes.now spans.now) digests.now }
        requires there { number < length spans.now }
        requires few { self.old.count + 1 < 2 ^ 64 }
        ensures takes { TakesChunk self.old self.new
            (get_or (chunks_in bytes.now spans.now) number []) result }
        ensures unread { IfErr result (λ fault. fault ≢ CheckFault.Read) }
        ensures alike { IsAlike self.old.follower self.new.follower }
        ensures count { OnOk result (self.new.count ≡ self.old.count + 1) }
    {
        let chunk = chunk_at(bytes, &spans[number]);
        let next = ChunksAhead::new(bytes, spans, digests, number + 1);
        self.take(alloc, chunk, digests[number], &next)
    }

    /// Tests that these bytes, which no whole frame begins, are the end record of the chunks, and
    /// answers their number and the reference of the root.
    pub(crate) fn finish(self, alloc: Global, bytes: &[u8]) -> Result<(u64, Ref), CheckFault>
        ensures ends { EndsChunks self bytes.now result }
        ensures unread { IfErr result (λ fault. fault ≢ CheckFault.Read) }
    {
        let Some((letter, rest)) = bytes.split_first() else {
            return Err(CheckFault::Truncated);
        };
        match *letter {
            FRAME_LETTER => Err(CheckFault::Truncated),
            END_LETTER => self.test_end_record(alloc, rest),
            _ => Err(CheckFault::BadFrame { chunk: self.count }),
        }
    }

    /// Tests that the bytes behind the letter of an end record are those of the record, and no more.
    fn test_end_record(self, alloc: Global, rest: &[u8]) -> Result<(u64, Ref), CheckFault>
        ensures ends { EndsRecord self rest.now result }
        ensures unread { IfErr result (λ fault. fault ≢ CheckFault.Read) }
    {
        let ChunksRead {
            follower,
            count,
            reference,
            last_key: _,
        } = self;
        follower.finish(alloc, count)?;
        if rest.len() < END_SIZE - 1 {
            return Err(CheckFault::Truncated);
        }
        if rest[..END_SIZE - 1] != end_record(&reference, count as u64)[1..] {
            return Err(CheckFault::BadEnd);
        }
        if rest.len() >= END_SIZE {
            return Err(CheckFault::Trailing);
        }
        Ok((count as u64, reference))
    }

    /// Whether the keys of a chunk rise behind those that were read. Keeps the last one.
    fn rises_to(
        &mut self,
        alloc: Global,
        chunk: &[u8],
        digest: ChunkDigest,
    ) -> Result<bool, AllocError>
        requires { (bits : ℕ) × IsDigest self.old.follower.version bits chunk.now digest }
        ensures rises { IfOk result (λ rises. rises ≡ rises_behind
            (option_map (λ key. key.items) self.old.last_key) (pairs_held chunk.now)) }
        ensures last { IfOk result (λ rises. rises ≡ true →
            option_map (λ key. key.items) self.new.last_key ≡
            last_behind (option_map (λ key. key.items) self.old.last_key) (pairs_held chunk.now)) }
        ensures same { (self.new.follower ≡ self.old.follower) × (self.new.count ≡ self.old.count) ×
            (self.new.reference ≡ self.old.reference) }
    {
        let last = match &self.last_key {
            Some(key) => Some(key.as_slice()),
            None => None,
        };
        let Ok(last) = last_in(last, self.follower.version, chunk, digest) else {
            return Ok(false);
        };
        let Some(key) = last else {
            self.last_key = None;
            return Ok(true);
        };
        let key = Vec::from_slice(alloc, key)?;
        self.last_key = Some(key);
        Ok(true)
    }
}
