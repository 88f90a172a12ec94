//! The bytes of a source that were read and are not consumed yet.
ghost use Rattle.std.specs.Prelude.{◌≡◌, ◌+◌, ◌-◌, ◌<◌, ◌≤◌, ◌^◌, true, [], length, take, drop, IsOk};
ghost use Rattle.std.specs.Prelude.{IfOk};
ghost use Rattle.std.specs.Option.{option_copied, option_map};
ghost use Rattle.std.specs.Result.{result_unwrap_or};
ghost use Rattle.prolly_io.specs.Failures.{CountsFailure};
ghost use Rattle.prolly_io.specs.ReadBuffer.{Fills};
ghost use Rattle.prolly_io.specs.Span.{part, ArePlaced};

use crate::device::source::{Source, SourceFault};
use std::alloc::{AllocError, Global};
use std::marker::Model;
use std::ops::Range;

/// How many bytes each read has room for, at least.
const READ_BYTES: usize = 65_536;

/// The bytes of a source that were read and not consumed yet, and a part of those before them that
/// is kept. At most `KEPT` bytes may be kept, and a read may be asked for where at most `UNPARSED`
/// are not consumed.
///
/// Both are used where they were read. They move to the front of the buffer only when a read needs
/// the room that they stand in, so nothing moves for each part that is consumed.
#[derive(Drop)]
pub struct ReadBuffer<const KEPT: usize, const UNPARSED: usize> {
    bytes: Vec<u8>,
    kept: Option<Span>,
    unparsed: Span,
}

impl<const KEPT: usize, const UNPARSED: usize> Model for ReadBuffer<KEPT, UNPARSED> {
    ghost use Rattle.std.specs.Prelude.{◌+◌, ◌-◌, vec_len};
    ghost use Rattle.std.specs.Option.{option_map};
    ghost use Rattle.prolly_io.specs.ReadBuffer.{Held};
    ghost use Rattle.prolly_io.specs.Span.{part, ArePlaced};
    ghost use Rattle.prolly_io.specs.declared.device.read_buffer.TheConstants.{READ_BYTES};

    ghost Value = { Held };

    ghost view = { λ b. record {
      kept = option_map (part b.bytes.items) b.kept;
      unparsed = part b.bytes.items b.unparsed;
      room = vec_len b.bytes - b.unparsed.end;
    } };

    ghost invariant = { λ b.
        ArePlaced KEPT (KEPT + UNPARSED + READ_BYTES) b.bytes.items b.kept b.unparsed };
}

impl<const KEPT: usize, const UNPARSED: usize> ReadBuffer<KEPT, UNPARSED> {
    /// An empty buffer, of the one size that it ever has: room for the bytes that may be kept, for
    /// those that may be unparsed, and for a read of 64 KiB.
    pub fn new(alloc: Global) -> Result<ReadBuffer<KEPT, UNPARSED>, AllocError>
        requires { KEPT + UNPARSED ≤ 2 ^ 32 }
        ensures kept { IfOk result (λ b. b.kept ≡ None) }
        ensures unparsed { IfOk result (λ b. b.unparsed ≡ []) }
    {
        Ok(ReadBuffer {
            bytes: vec![in alloc; 0; KEPT + UNPARSED + READ_BYTES]?,
            kept: None,
            unparsed: Span { start: 0, end: 0 },
        })
    }

    /// The bytes that are not consumed yet.
    pub fn unparsed(&self) -> &[u8]
        ensures { result.now ≡ self.now.unparsed }
    {
        &self.bytes[self.unparsed.start..self.unparsed.end]
    }

    /// The bytes that are kept, if any are.
    pub fn kept(&self) -> Option<&[u8]>
        ensures { option_copied result ≡ self.now.kept }
    {
        match self.kept {
            None => None,
            Some(kept) => Some(&self.bytes[kept.start..kept.end]),
        }
    }

    /// Consumes the first `len` of the unparsed bytes.
    pub fn consume(&mut self, len: usize)
        requires { len ≤ length self.old.unparsed }
        ensures kept { self.new.kept ≡ self.old.kept }
        ensures unparsed { self.new.unparsed ≡ drop len self.old.unparsed }
    {
        self.unparsed.start += len;
    }

    /// Consumes the first `len` of the unparsed bytes, and keeps those of them that lie in this range,
    /// instead of what was kept before.
    pub fn consume_keeping(&mut self, len: usize, kept: Range<usize>)
        requires kept { (kept.start ≤ kept.end) × (kept.end ≤ kept.start + KEPT) }
        requires len { (kept.end ≤ len) × (len ≤ length self.old.unparsed) }
        ensures kept { self.new.kept ≡ Some
            (take (kept.end - kept.start) (drop kept.start self.old.unparsed)) }
        ensures unparsed { self.new.unparsed ≡ drop len self.old.unparsed }
    {
        let start = self.unparsed.start;
        self.kept = Some(Span {
            start: start + kept.start,
            end: start + kept.end,
        });
        self.unparsed.start = start + len;
    }

    /// Reads once, with room for 64 KiB or more, and answers how many unparsed bytes came. Only at
    /// the end of the source is it 0.
    pub fn fill<S: Source>(&mut self, source: &mut S) -> Result<usize, SourceFault>
        requires { length self.old.unparsed ≤ UNPARSED }
        ensures kept { self.new.kept ≡ self.old.kept }
        ensures fills { Fills (S.seen source.old).is_honest (S.seen source.old).left
            (S.seen source.new).left self.old.unparsed self.new.unparsed result }
        ensures honest { (S.seen source.old).is_honest ≡ true →
            (S.seen source.new).is_honest ≡ true }
        ensures steady { (S.seen source.old).is_steady ≡ true →
            (S.seen source.new).is_steady ≡ true }
        ensures failures { CountsFailure (S.seen source.old).failures
            (S.seen source.new).failures result }
        ensures succeeds { (S.seen source.old).is_steady ≡ true → IsOk result }
    {
        self.make_room();
        let count = read_behind(source, self.bytes.as_mut_slice(), self.unparsed)?;
        self.unparsed.end += count;
        Ok(count)
    }

    /// Makes room for a read behind the unparsed bytes, where there is less.
    fn make_room(&mut self)
        requires { length self.old.unparsed ≤ UNPARSED }
        ensures kept { self.new.kept ≡ self.old.kept }
        ensures unparsed { self.new.unparsed ≡ self.old.unparsed }
        ensures room { READ_BYTES ≤ self.new.room }
    {
        if self.bytes.len() - self.unparsed.end >= READ_BYTES {
            return;
        }
        let (kept, unparsed) = compact::<KEPT>(self.bytes.as_mut_slice(), self.kept, self.unparsed);
        self.kept = kept;
        self.unparsed = unparsed;
    }
}

/// Moves the kept bytes to the front and the unparsed ones behind them, and answers where they are
/// then.
fn compact<const KEPT: usize>(
    bytes: &mut [u8],
    kept: Option<Span>,
    unparsed: Span,
) -> (Option<Span>, Span)
    requires { ArePlaced KEPT (length bytes.old) bytes.old kept unparsed }
    ensures kept { option_map (part bytes.new) result.0 ≡ option_map (part bytes.old) kept }
    ensures unparsed { part bytes.new result.1 ≡ part bytes.old unparsed }
    ensures placed { ArePlaced KEPT (length bytes.old) bytes.new result.0 result.1 }
    ensures low { result.1.end ≤ KEPT + (unparsed.end - unparsed.start) }
{
    let Some(kept) = kept else {
        return (None, move_down(bytes, unparsed, 0));
    };
    let kept = move_down(bytes, kept, 0);
    (Some(kept), move_down(bytes, unparsed, kept.end))
}

/// Moves the bytes of a span down so that they begin at `to`, and answers where they are then.
fn move_down(bytes: &mut [u8], from: Span, to: usize) -> Span
    requires within { (from.start ≤ from.end) × (from.end ≤ length bytes.old) }
    requires down { to ≤ from.start }
    ensures span { result ≡ record { start = to; end = to + (from.end - from.start) } }
    ensures moved { part bytes.new result ≡ part bytes.old from }
    ensures before { take to bytes.new ≡ take to bytes.old }
    ensures behind { drop from.end bytes.new ≡ drop from.end bytes.old }
    ensures size { length bytes.new ≡ length bytes.old }
{
    bytes.copy_within(from.start..from.end, to);
    Span {
        start: to,
        end: to + (from.end - from.start),
    }
}

/// Reads once behind the unparsed bytes, and answers how many bytes came.
fn read_behind<S: Source>(
    source: &mut S,
    bytes: &mut [u8],
    unparsed: Span,
) -> Result<usize, SourceFault>
    requires { (unparsed.start ≤ unparsed.end) × (unparsed.end < length bytes.old) }
    ensures size { length bytes.new ≡ length bytes.old }
    ensures bound { IfOk result (λ count. unparsed.end + count ≤ length bytes.old) }
    ensures before { take unparsed.end bytes.new ≡ take unparsed.end bytes.old }
    ensures fills { let grown = record unparsed { end = unparsed.end + result_unwrap_or result 0 }
        in Fills (S.seen source.old).is_honest (S.seen source.old).left (S.seen source.new).left
        (part bytes.old unparsed) (part bytes.new grown) result }
    ensures honest { (S.seen source.old).is_honest ≡ true → (S.seen source.new).is_honest ≡ true }
    ensures steady { (S.seen source.old).is_steady ≡ true → (S.seen source.new).is_steady ≡ true }
    ensures failures { CountsFailure (S.seen source.old).failures
        (S.seen source.new).failures result }
    ensures succeeds { (S.seen source.old).is_steady ≡ true → IsOk result }
{
    source.read(&mut bytes[unparsed.end..])
}

/// The bytes from one offset to another.
#[derive(Clone, Copy)]
pub(crate) struct Span {
    pub(crate) start: usize,
    pub(crate) end: usize,
}
