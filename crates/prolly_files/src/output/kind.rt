//! What kind of file a command writes, and whether a file is one.
use prolly_entry::{KEY_LIMIT, LENGTHS_SIZE, RecordFault, VALUE_LIMIT, records};
use prolly_fault::NameFault;
use prolly_io::{FromRead, take_front};
use std::alloc::{AllocError, Global};
use std::fs;

/// The letters that a chunk file begins with.
pub const CHUNK_FILE_LETTERS: &[u8; 4] = b"PRLY";

/// The letters that a proof begins with.
const PROOF_LETTERS: &[u8; 4] = b"PRLP";

/// The greatest size of a record: the lengths of key and value, of two and of four bytes, and both of
/// them as long as they may be.
const RECORD_BYTES: usize = LENGTHS_SIZE + KEY_LIMIT + VALUE_LIMIT;

/// How much of a file is looked at to tell whether it is one of records: two of the greatest size, and
/// a byte more.
const RECORDS_BYTES: usize = 2 * RECORD_BYTES + 1;

/// How many records are looked at, where so many are in these bytes.
const FIRST_RECORDS: u32 = 16;

/// How much of a file is looked at to tell whether it is one of lines. All other kinds have a byte
/// that no line has among their first ones.
const LINE_BYTES: usize = 4_096;

/// Why it can't be told what a file holds.
pub enum LookFault {
    /// Memory was refused.
    Memory,
    /// The file can't be opened, or read.
    Read,
}

impl From<AllocError> for LookFault {
    ghost use Rattle.std.specs.Prelude.{◌≡◌};
    ghost use Rattle.prolly_files.specs.declared.output.kind.LookFault.TheVariants.{Memory};

    ghost from_gives = { λ _ fault. fault ≡ Memory };

    fn from(_error: AllocError) -> LookFault {
        LookFault::Memory
    }
}

/// A kind of file that commands write.
#[derive(Clone, Copy, PartialEq, Eq)]
pub enum OutputKind {
    /// The chunks of a whole tree.
    ChunkFile,
    /// Pairs and removals, in the order of their keys.
    RecordFile,
    /// Chunks that show what the map of a tree has at a key, in a range, or at many keys.
    Proof,
    /// Lines of text, or of hexadecimal.
    Lines,
}

impl OutputKind {
    /// Whether the file of this name is of the kind, as far as its beginning tells. An empty file is
    /// of each kind.
    pub fn is_that_of(self, rt: &HostRuntime, name: &str) -> Result<bool, LookFault> {
        let mut front = vec![in rt.alloc(); 0; self.most_bytes()]?;
        let Ok(file) = fs::open(rt, name) else {
            return Err(LookFault::Read);
        };
        let Ok(count) = take_front(&mut FromRead::new(file), &mut front) else {
            return Err(LookFault::Read);
        };
        self.begins(rt.alloc(), &front[..count])
    }

    /// The fault of a file of another kind.
    pub fn fault(self) -> NameFault {
        match self {
            OutputKind::ChunkFile => NameFault::NotChunkFile,
            OutputKind::RecordFile => NameFault::NotRecordFile,
            OutputKind::Proof => NameFault::NotProof,
            OutputKind::Lines => NameFault::NotLines,
        }
    }

    /// How many of a file's first bytes tell its kind.
    fn most_bytes(self) -> usize {
        match self {
            OutputKind::ChunkFile | OutputKind::Proof => 4,
            OutputKind::RecordFile => RECORDS_BYTES,
            OutputKind::Lines => LINE_BYTES,
        }
    }

    /// Whether a file of this kind, or one without a byte, begins so.
    fn begins(self, alloc: Global, front: &[u8]) -> Result<bool, LookFault> {
        match self {
            _ if front.is_empty() => Ok(true),
            OutputKind::ChunkFile => Ok(front.starts_with(CHUNK_FILE_LETTERS)),
            OutputKind::Proof => Ok(front.starts_with(PROOF_LETTERS)),
            OutputKind::RecordFile => is_of_records(alloc, front),
            OutputKind::Lines => Ok(front.iter().all(|byte| is_of_lines(*byte))),
        }
    }
}

/// Whether bytes begin with good records in order, of which one alone tells little: it may be a few
/// zeros. The last one may be cut where the file goes on behind these bytes.
fn is_of_records(alloc: Global, front: &[u8]) -> Result<bool, LookFault> {
    match records(alloc, front, FIRST_RECORDS) {
        Ok(_) | Err(RecordFault::TooManyRecords) => Ok(true),
        Err(RecordFault::Truncated { .. }) => Ok(front.len() == RECORDS_BYTES),
        Err(RecordFault::Memory) => Err(LookFault::Memory),
        Err(_) => Ok(false),
    }
}

/// Whether a byte may stand in lines as they are written, or as other programs end them.
fn is_of_lines(byte: u8) -> bool {
    byte >= b' ' || matches!(byte, b'\t' | b'\n' | b'\r')
}
