//! A device of which short reads near each other are served from a block.
ghost use Rattle.std.specs.Prelude.{◌≡◌, ◌+◌, ◌-◌, ◌≤◌, true, length, take, drop, IfOk, IfSome};
ghost use Rattle.std.specs.Prelude.{OnOk, OnErr};
ghost use Rattle.prolly_io.specs.Failures.{CountsFailure};

use crate::device::read_at::Device;
use crate::device::source::SourceFault;
use std::alloc::{AllocError, Global};

/// How many bytes a block has.
const BLOCK: usize = 65_536;

/// How far behind the end of the last read one that stands near it begins at most. A block then
/// serves eight such reads or more, which is what makes it cheaper than these reads.
const NEAR: u64 = 8_192;

/// How many bytes of the last read one that stands near it may read again. Who goes over frames
/// reads the first byte of a chunk with its frame, and then the chunk.
const AGAIN: u64 = 1;

/// A device that keeps one block of 64 KiB of the device below it, and serves reads from it.
///
/// A read goes to the device below where its bytes are not all in the block. A whole block is read
/// there only where this read and the one before it each begin near the end of the one before them,
/// and has room in a block. Near is up to 8 KiB behind that end, or at its last byte. So of reads
/// that each begin near the last one, one for each 64 KiB goes to the device below; and where they stand far from each other, or
/// are longer than a block, each reads what it was asked for and no more.
///
/// To contracts it is the device below it, as long as what it keeps are that device's bytes.
#[derive(Drop)]
pub struct Blocks<D> {
    device: D,
    block: Vec<u8>,
    /// Where the block begins in the device.
    start: u64,
    /// How many bytes of the block are the device's.
    kept: usize,
    last: LastRead,
}

/// The last read that a device was asked for.
#[derive(Drop)]
struct LastRead {
    /// Where it ended.
    end: u64,
    /// Whether it began near the end of the one before it.
    was_near: bool,
}

impl LastRead {
    /// Before the first read, which then begins behind none.
    const NONE: LastRead = LastRead {
        end: u64::MAX,
        was_near: false,
    };

    /// Notes the next read, and answers whether it and the one before it each begin near the end of
    /// the one before them.
    fn goes_on(&mut self, offset: u64, len: usize) -> bool {
        let was_near = self.was_near;
        self.was_near = offset.saturating_add(AGAIN) >= self.end
            && offset.saturating_sub(self.end) <= NEAR;
        self.end = offset.saturating_add(len as u64);
        was_near && self.was_near
    }
}

impl<D: Device + Drop> Blocks<D> {
    /// A device over this one. It reads nothing yet. Takes the memory of one block, and no more
    /// later.
    pub fn new(alloc: Global, device: D) -> Result<Blocks<D>, AllocError>
        ensures { IfOk result (λ blocks. ⟦<Blocks<D> as Device>⟧.seen blocks ≡ D.seen device) }
    {
        Ok(Blocks {
            device,
            block: vec![in alloc; 0; BLOCK]?,
            start: 0,
            kept: 0,
            last: LastRead::NONE,
        })
    }
}

impl<D: Device> Blocks<D> {
    /// The bytes from this offset on, so many of them, where the block has them all.
    fn kept_at(&self, offset: u64, len: usize) -> Option<&[u8]>
        ensures behind { IfSome result (λ bytes. self.now.start ≤ offset) }
        ensures within { IfSome result (λ bytes. (offset - self.now.start) + len ≤ self.now.kept) }
        ensures len { IfSome result (λ bytes. length bytes.now ≡ len) }
        ensures bytes { IfSome result (λ bytes. bytes.now ≡
            take len (drop (offset - self.now.start) self.now.block.items)) }
    {
        let at = usize::try_from(offset.checked_sub(self.start)?).ok()?;
        let end = at.checked_add(len)?;
        if end > self.kept {
            return None;
        }
        self.block.get(at..end)
    }

    /// Reads the block that begins at this offset. Nothing is kept where that fails.
    fn read_block(&mut self, offset: u64) -> Result<(), SourceFault>
        ensures start { self.new.start ≡ offset }
        ensures none { OnErr result (self.new.kept ≡ 0) }
        ensures bound { OnOk result (self.new.kept ≤ length self.new.block.items) }
        ensures size { length self.new.block.items ≡ length self.old.block.items }
        ensures bytes { (D.seen self.old.device).is_honest ≡ true → OnOk result
            (take self.new.kept self.new.block.items ≡ take (length self.new.block.items)
            (drop offset (D.seen self.old.device).bytes)) }
        ensures honest { (D.seen self.old.device).is_honest ≡ true →
            (D.seen self.new.device).is_honest ≡ true }
        ensures same { (D.seen self.old.device).is_honest ≡ true →
            (D.seen self.new.device).bytes ≡ (D.seen self.old.device).bytes }
        ensures failures { CountsFailure (D.seen self.old.device).failures
            (D.seen self.new.device).failures result }
    {
        self.kept = 0;
        self.start = offset;
        self.kept = self.device.read_at(offset, &mut self.block)?;
        Ok(())
    }
}

impl<D: Device> Device for Blocks<D> {
    ghost use Rattle.std.specs.Prelude.{◌&&◌, take, drop};
    ghost use Rattle.std.specs.Str.{bytes_eq};

    ghost seen = { λ blocks. record {
      is_honest = (D.seen blocks.device).is_honest &&
          bytes_eq (take blocks.kept blocks.block.items)
          (take blocks.kept (drop blocks.start (D.seen blocks.device).bytes));
      bytes = (D.seen blocks.device).bytes;
      failures = (D.seen blocks.device).failures;
    } };

    fn len(&mut self) -> Result<u64, SourceFault> {
        self.device.len()
    }

    fn read_at(&mut self, offset: u64, buf: &mut [u8]) -> Result<usize, SourceFault> {
        let goes_on = self.last.goes_on(offset, buf.len());
        if let Some(bytes) = self.kept_at(offset, buf.len()) {
            buf.copy_from_slice(bytes);
            return Ok(buf.len());
        }
        if !goes_on || buf.len() > self.block.len() {
            return self.device.read_at(offset, buf);
        }
        self.read_block(offset)?;
        let count = buf.len().min(self.kept);
        buf[..count].copy_from_slice(&self.block[..count]);
        Ok(count)
    }
}
