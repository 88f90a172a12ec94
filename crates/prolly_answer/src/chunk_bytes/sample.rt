//! What is seen of record files before bits are chosen by it.
ghost use Rattle.std.specs.Prelude.{◌≡◌, ◌≢◌, ◌≤◌, ◌++◌, take, true, length};
ghost use Rattle.std.specs.Prelude.{IsOk, IfErr, IfOk, OnErr, OnOk};
ghost use Rattle.prolly_io.specs.Source.{AreHonest};
ghost use Rattle.prolly_answer.specs.ChunkBytes.{ArePuts, IsChoice, Samples, nothing_sampled};
ghost use Rattle.prolly_answer.specs.Peeks.{ArePutBack, IsPutBack, IsUnread, IsUnreadOf};
ghost use Rattle.prolly_answer.specs.Peeks.{SamplesAll, lefts_of};

use crate::chunk_bytes::chosen_bits::{ChosenBits, least_bits};
use crate::input::RECORD_LIMIT;
use prolly_entry::{NextRecord, next_record};
use prolly_io::{Rejoined, Source, SourceFault, take_front};
use prolly_link::RunFault;
use std::alloc::{AllocError, Global};
use std::marker::Model;

/// How many bytes are read before bits are chosen, at most.
const SAMPLE_BYTES: usize = 1_000_000;

/// What was seen of the first 1,000,000 bytes of record files.
#[derive(Drop)]
pub struct Sample {
    left: usize,
    entries: usize,
    bytes: usize,
}

impl Model for Sample {
    ghost use Rattle.std.specs.Prelude.{◌+◌, ◌≤◌};
    ghost use Rattle.prolly_answer.specs.ChunkBytes.{Sampled};

    ghost Value = { Sampled };

    ghost view = { λ s. record { left = s.left; entries = s.entries; bytes = s.bytes } };

    ghost invariant = { λ s. (s.entries ≤ s.bytes) × (s.bytes + s.left ≤ 1000000) };
}

impl Sample {
    /// A sample of nothing yet.
    pub fn new() -> Sample
        ensures { result ≡ nothing_sampled }
    {
        Sample {
            left: SAMPLE_BYTES,
            entries: 0,
            bytes: 0,
        }
    }

    /// Takes the first bytes of a record file off its source, as many as the sample still wants, and
    /// counts the entries that the records in them put. Gives these bytes, which are to be put back
    /// before the source, as [`peek`](Sample::peek) does.
    ///
    /// A record counts where it is whole and good, and so are all before it; a removal counts for
    /// nothing. At a `SourceFault` what was read before it is gone. An `AllocError` is want of memory
    /// for the bytes; then nothing was read.
    pub fn read<S: Source>(
        &mut self,
        alloc: Global,
        source: &mut S,
    ) -> Result<Result<Vec<u8>, SourceFault>, AllocError>
        ensures sampled { IfOk result (λ read. IfOk read (λ front.
            Samples front.items self.old self.new)) }
        ensures first { (S.seen source.old).is_honest ≡ true → IfOk result (λ read. IfOk read
            (λ front. front.items ≡ take self.old.left (S.seen source.old).left)) }
        ensures joined { (S.seen source.old).is_honest ≡ true → IfOk result (λ read. IfOk read
            (λ front. front.items ++ (S.seen source.new).left ≡ (S.seen source.old).left)) }
        ensures failed { IfOk result (λ read. IfErr read (λ _.
            (S.seen source.new).failures ≢ (S.seen source.old).failures)) }
        ensures unfailed { IfOk result (λ read. OnOk read
            ((S.seen source.new).failures ≡ (S.seen source.old).failures)) }
        ensures refused { OnErr result (source.new ≡ source.old) }
        ensures honest { (S.seen source.old).is_honest ≡ true → (S.seen source.new).is_honest ≡ true }
        ensures steady { (S.seen source.old).is_steady ≡ true → (S.seen source.new).is_steady ≡ true }
        ensures succeeds { (S.seen source.old).is_steady ≡ true → IfOk result IsOk }
    {
        let mut front = vec![in alloc; 0; self.left]?;
        match take_front(source, &mut front) {
            Ok(count) => {
                front.truncate(count);
                self.count(&front);
                Ok(Ok(front))
            }
            Err(fault) => Ok(Err(fault)),
        }
    }

    /// Looks at the first bytes of a record file, as [`read`](Sample::read) does, and puts them back:
    /// gives a source of the same bytes.
    ///
    /// Where a read fails, the source comes back as `Err`, without what was read of it. Where memory is
    /// refused, it is gone.
    pub fn peek<S: Source + Drop>(
        &mut self,
        alloc: Global,
        mut source: S,
    ) -> Result<Result<Rejoined<S>, S>, AllocError>
        ensures sampled { (S.seen source).is_honest ≡ true → IfOk result (λ read. OnOk read
            (Samples (take self.old.left (S.seen source).left) self.old self.new)) }
        ensures put_back { (S.seen source).is_honest ≡ true → IfOk result (λ read. IfOk read
            (λ whole. IsPutBack (S.seen source) (⟦<Rejoined<S> as Source>⟧.seen whole))) }
        ensures failed { IfOk result (λ read. IfErr read (λ after.
            (S.seen after).failures ≢ (S.seen source).failures)) }
        ensures succeeds { (S.seen source).is_steady ≡ true → IfOk result IsOk }
    {
        match self.read(alloc, &mut source)? {
            Ok(front) => Ok(Ok(Rejoined::new(front, source))),
            Err(_) => Ok(Err(source)),
        }
    }

    /// Looks at the first bytes of record files, one file after another, and puts them back: gives
    /// sources of the same bytes, in the same order.
    ///
    /// At the first failed read that source comes back, and the others are gone. Where memory is
    /// refused, all are.
    pub fn peek_all<S: Source + Drop>(
        &mut self,
        alloc: Global,
        sources: Vec<S>,
    ) -> Result<Result<Vec<Rejoined<S>>, Unread<S>>, AllocError>
        ensures sampled { AreHonest S.seen sources.items → IfOk result (λ read. OnOk read
            (SamplesAll (lefts_of S.seen sources.items) self.old self.new)) }
        ensures put_back { IfOk result (λ read. IfOk read (λ wholes. ArePutBack S.seen
            ⟦<Rejoined<S> as Source>⟧.seen sources.items wholes.items)) }
        ensures failed { IfOk result (λ read. IfErr read (λ unread.
            IsUnreadOf S.seen sources.items unread.file unread.source)) }
    {
        let mut wholes = Vec::with_capacity(alloc, sources.len())?;
        for source in sources {
            let whole = match self.peek(alloc, source)? {
                Ok(whole) => whole,
                Err(source) => {
                    let file = wholes.len();
                    return Ok(Err(Unread { file, source }));
                }
            };
            wholes.push(whole)?;
        }
        Ok(Ok(wholes))
    }

    /// Counts the entries that the records in these first bytes of a record file put.
    fn count(&mut self, front: &[u8])
        requires { length front.now ≤ self.old.left }
        ensures { Samples front.now self.old self.new }
    {
        let puts = puts_in(front);
        self.left -= front.len();
        self.entries += puts.entries;
        self.bytes += puts.bytes;
    }

    /// The bits by which a chunk of entries as the sample has them has about so many bytes: the least
    /// bits, from 2 on, by which these are at most 1.4 times the size that a chunk has on average, or
    /// 24 bits. None where the sample has no entry.
    pub fn bits_for(&self, chunk_bytes: u32) -> Option<ChosenBits>
        ensures { IsChoice self.now chunk_bytes result }
    {
        if self.entries == 0 {
            return None;
        }
        let mean = (self.bytes / self.entries) as u64;
        let bits = least_bits(mean, chunk_bytes);
        Some(ChosenBits { bits, mean })
    }
}

/// A record file that could not be looked at, since a read failed.
#[derive(Drop)]
pub struct Unread<S> {
    /// Its number among the files, from 0 on.
    pub file: usize,
    /// It, as the reads left it.
    pub source: S,
}

impl<S> Unread<S> {
    /// The fault by which a run names the file.
    pub fn fault(&self) -> RunFault
        ensures { IsUnread self.now.file result }
    {
        match u32::try_from(self.file) {
            Ok(file) => RunFault::Read { file },
            Err(_) => RunFault::TooManyFiles,
        }
    }
}

/// How many entries records put, and how many bytes these have.
#[derive(Clone, Copy)]
struct Puts {
    entries: usize,
    bytes: usize,
}

/// What the whole and good records put with which the bytes of a record file begin.
fn puts_in(front: &[u8]) -> Puts
    ensures { ArePuts front.now result.entries result.bytes }
{
    let mut puts = Puts {
        entries: 0,
        bytes: 0,
    };
    let mut count = 0;
    let mut last_key = None;
    let mut rest = front;
    loop {
        match next_record(RECORD_LIMIT, count, last_key, rest) {
            NextRecord::Record(at) => {
                if at.value_start.is_some() {
                    puts.entries += 1;
                    puts.bytes += at.len;
                }
                last_key = Some(at.key(rest));
                rest = &rest[at.len..];
                count += 1;
            }
            NextRecord::More | NextRecord::Flawed(_) => return puts,
        }
    }
}
