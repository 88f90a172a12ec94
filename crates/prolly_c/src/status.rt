//! What calls answer: one number a status. The header has a name for each that a call answers. 26 is
//! answered by none: bytes in memory are never too long.
ghost use Rattle.std.specs.Prelude.{◌≡◌, ◌⊎◌};
ghost use Rattle.prolly_c.specs.Built.{status_of_records};
ghost use Rattle.prolly_c.specs.Proofs.{status_of_proof, status_of_root};
ghost use Rattle.prolly_c.specs.RangeProofs.{status_of_set};
ghost use Rattle.prolly_c.specs.Report.{status_of_check};

use prolly_check::CheckFault;
use prolly_entry::RecordFault;
use prolly_range::SetFault;
use prolly_root::{ProofFault, RootFault};

/// The call is done; a look-up found a value.
pub(crate) const DONE: u32 = 0;

/// A look-up found that there is none.
pub(crate) const NONE: u32 = 1;

/// Memory was refused.
pub(crate) const MEMORY: u32 = 2;

/// What was asked for has more elements than there is room for. Their number is told, but not by
/// `prolly_record`.
pub(crate) const NO_ROOM: u32 = 3;

/// The index, or the cursor, is not of these bytes.
pub(crate) const WRONG_INDEX: u32 = 4;

/// The bytes are no chunk file.
pub(crate) const NO_FILE: u32 = 5;

/// A number, or a length, is out of its range.
pub(crate) const USAGE: u32 = 6;

/// The index or the cursor that a call was given is not of the bytes that it was given.
#[derive(Clone, Copy)]
pub(crate) struct WrongIndex;

/// Tells a fault, which is a status and the number that it names. Where memory was refused, nothing
/// is named, and what stands there stays.
pub(crate) fn tell(fault: (u32, u64), named: &mut u64) -> u32
    ensures status { result ≡ fault.0 }
    ensures told { (result ≡ 2) ⊎ ((result, named.new) ≡ fault) }
    ensures stays { result ≡ 2 → named.new ≡ named.old }
{
    let (status, number) = fault;
    if status == MEMORY {
        return MEMORY;
    }
    *named = number;
    status
}

/// The status of a fault of a check, and the chunk that it names.
pub(crate) fn check_status(fault: CheckFault) -> (u32, u64)
    ensures { result ≡ status_of_check fault }
{
    match fault {
        CheckFault::Memory => (MEMORY, 0),
        CheckFault::Truncated => (16, 0),
        CheckFault::BadHeader => (17, 0),
        CheckFault::BadFrame { chunk } => (18, chunk as u64),
        CheckFault::Trailing => (19, 0),
        CheckFault::BadChunk { chunk } => (20, chunk as u64),
        CheckFault::KeysOutOfOrder { chunk } => (21, chunk as u64),
        CheckFault::NotCanonical { chunk } => (22, chunk as u64),
        CheckFault::BadEnd => (23, 0),
        CheckFault::Collision { chunk } => (24, chunk as u64),
        CheckFault::Read => (25, 0),
        CheckFault::TooLong => (26, 0),
    }
}

/// The status of a fault of a record file, and the number of the record that it names.
pub(crate) fn record_status(fault: RecordFault) -> (u32, u64)
    ensures { result ≡ status_of_records fault }
{
    match fault {
        RecordFault::Memory => (MEMORY, 0),
        RecordFault::Truncated { place } => (32, u64::from(place)),
        RecordFault::KeyTooLong { place } => (33, u64::from(place)),
        RecordFault::ValueTooLong { place } => (34, u64::from(place)),
        RecordFault::OutOfOrder { place } => (35, u64::from(place)),
        RecordFault::TooManyRecords => (36, 0),
    }
}

/// The status of a fault of a proof, and the chunk that it names.
pub(crate) fn proof_status(fault: ProofFault) -> (u32, u64)
    ensures { result ≡ status_of_proof fault }
{
    match fault {
        ProofFault::Header => (48, 0),
        ProofFault::Version => (49, 0),
        ProofFault::Truncated => (50, 0),
        ProofFault::Frame { chunk } => (51, chunk as u64),
        ProofFault::Reference { chunk } => (52, chunk as u64),
        ProofFault::Chunk { chunk } => (53, chunk as u64),
        ProofFault::KeysOutOfOrder { chunk } => (54, chunk as u64),
        ProofFault::Level { chunk } => (55, chunk as u64),
        ProofFault::Trailing => (56, 0),
    }
}

/// The status of why bytes are no proof of a range, and the chunk that it names.
pub(crate) fn set_status(fault: SetFault) -> (u32, u64)
    ensures { result ≡ status_of_set fault }
{
    match fault {
        SetFault::Memory => (MEMORY, 0),
        SetFault::Proof(fault) => proof_status(fault),
        // No read of memory fails, and after a fault nothing is asked.
        SetFault::Read | SetFault::Stopped => (25, 0),
    }
}

/// The status of why a file gives no proof, and the chunk that it names.
pub(crate) fn root_status(fault: RootFault) -> (u32, u64)
    ensures { result ≡ status_of_root fault }
{
    match fault {
        RootFault::Memory => (MEMORY, 0),
        RootFault::Truncated => (16, 0),
        RootFault::Header => (17, 0),
        RootFault::Frame { chunk } => (18, chunk),
        RootFault::Trailing => (19, 0),
        RootFault::Chunk { chunk } => (20, chunk),
        RootFault::KeysOutOfOrder { chunk } => (21, chunk),
        RootFault::Version => (64, 0),
        RootFault::Missing => (65, 0),
        RootFault::Reference { chunk } => (66, chunk),
        RootFault::Level { chunk } => (67, chunk),
        RootFault::Read => (25, 0),
    }
}
