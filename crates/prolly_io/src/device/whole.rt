//! Reading a source to its end.
ghost use Rattle.std.specs.Prelude.{◌≡◌, ◌≢◌, ◌↔◌, ◌<◌, ◌≤◌, true, [], length, vec_len, IfOk, OnOk};
ghost use Rattle.std.specs.Prelude.{IsErrOf};

use crate::device::part_reader::{PartReader, ReadFault};
use crate::device::source::{Source, SourceFault};
use std::alloc::{AllocError, Global};
use std::error::Error;
use std::fmt;
use std::fmt::{Display, Formatter};

/// Why a source was not read whole.
#[derive(Clone, Copy, Debug, PartialEq, Eq)]
pub enum WholeFault {
    /// Memory was refused.
    Memory,
    /// The source failed.
    Read,
    /// The source has more bytes than are allowed.
    TooLong,
}

impl Display for WholeFault {
    ghost use Rattle.std.specs.Prelude.{Some};
    ghost use Rattle.prolly_io.specs.FaultTexts.{whole_fault_text};

    ghost output = { λ fault. Some (whole_fault_text fault) };

    fn fmt<W: fmt::Write>(&self, f: &mut Formatter<W>) -> fmt::Result {
        match self {
            WholeFault::Memory => f.write_str("out of memory"),
            WholeFault::Read => f.write_str("read failed"),
            WholeFault::TooLong => f.write_str("input too long"),
        }
    }
}

impl Error for WholeFault {}

impl From<AllocError> for WholeFault {
    ghost use Rattle.prolly_io.specs.declared.device.whole.WholeFault.TheVariants.{Memory};

    ghost from_gives = { λ _ fault. fault ≡ Memory };

    fn from(_: AllocError) -> Self {
        WholeFault::Memory
    }
}

impl From<SourceFault> for WholeFault {
    ghost use Rattle.prolly_io.specs.declared.device.whole.WholeFault.TheVariants.{Read};

    ghost from_gives = { λ _ fault. fault ≡ Read };

    fn from(_: SourceFault) -> Self {
        WholeFault::Read
    }
}

impl From<ReadFault> for WholeFault {
    ghost use Rattle.prolly_io.specs.ReadFaults.{whole_fault};

    ghost from_gives = { λ read fault. fault ≡ whole_fault read };

    fn from(read: ReadFault) -> Self {
        match read {
            ReadFault::Memory => WholeFault::Memory,
            ReadFault::Read => WholeFault::Read,
        }
    }
}

/// All the bytes that a source has left, of which at most `max_bytes` are allowed.
///
/// Answers the fault that is met first, in the order of the bytes; what was read before it is gone.
/// Takes time linear in the bytes, and holds 64 KiB beside those that are answered.
pub fn read_whole<S: Source>(
    alloc: Global,
    source: &mut S,
    max_bytes: u32,
) -> Result<Vec<u8>, WholeFault>
    ensures whole { (S.seen source.old).is_honest ≡ true →
        IfOk result (λ bytes. bytes.items ≡ (S.seen source.old).left) }
    ensures end { (S.seen source.old).is_honest ≡ true →
        OnOk result ((S.seen source.new).left ≡ []) }
    ensures within { IfOk result (λ bytes. vec_len bytes ≤ max_bytes) }
    ensures too_long { (S.seen source.old).is_honest ≡ true → IsErrOf result WholeFault.TooLong →
        max_bytes < length (S.seen source.old).left }
    ensures read { IsErrOf result WholeFault.Read ↔ ((S.seen source.new).failures ≢ (S.seen
        source.old).failures) }
    ensures unfailed { OnOk result ((S.seen source.new).failures ≡ (S.seen source.old).failures) }
    ensures never { (S.seen source.old).is_steady ≡ true →
        (S.seen source.new).failures ≡ (S.seen source.old).failures }
    ensures honest { (S.seen source.old).is_honest ≡ true → (S.seen source.new).is_honest ≡ true }
    ensures steady { (S.seen source.old).is_steady ≡ true → (S.seen source.new).is_steady ≡ true }
{
    let mut whole = Vec::new(alloc);
    let mut reader = PartReader::new(alloc)?;
    // One byte more than is allowed tells that there are too many.
    let is_over = reader.read_up_to(source, &mut whole, max_bytes as usize + 1)?;
    if is_over {
        Ok(whole)
    } else {
        Err(WholeFault::TooLong)
    }
}
