//! Why a look-up by a root has no answer.
ghost use Rattle.std.specs.Prelude.{◌≡◌};

use prolly_entry::FaultText;
use prolly_io::SourceFault;
use prolly_look_up::ChunkFlaw;
use std::alloc::AllocError;
use std::error::Error;
use std::fmt;
use std::fmt::{Display, Formatter};

/// The first fault that a look-up by a root meets. Chunks are numbered from 0 in the order of the
/// file.
#[derive(Clone, Copy, Debug, PartialEq, Eq)]
pub enum RootFault {
    /// Memory was refused.
    Memory,
    /// A read failed.
    Read,
    /// The bytes do not begin as a chunk file does: they are something else.
    Header,
    /// They begin as a chunk file of the other version: look up by the version that the tree has.
    Version,
    /// They end before the file does: a part of it was lost.
    Truncated,
    /// Where this chunk's frame should begin there is a byte that begins none.
    Frame { chunk: u64 },
    /// Bytes follow the end record.
    Trailing,
    /// The file has no chunk where one should stand below another, or none at all.
    Missing,
    /// This chunk is not the one that the chunk above it, or the root, refers to: it was changed,
    /// or the file is that of another tree.
    Reference { chunk: u64 },
    /// This chunk is not a level and whole lawful entries of that level's kind: no tree has it.
    Chunk { chunk: u64 },
    /// In this chunk, which is the one that is referred to, a key is not greater than the one
    /// before it: no tree has it.
    KeysOutOfOrder { chunk: u64 },
    /// This chunk is the one that is referred to, but does not stand one level below the one above
    /// it: no tree has it there.
    Level { chunk: u64 },
}

impl RootFault {
    ghost use Rattle.prolly_entry.specs.FaultTexts.{shown_text};
    ghost use Rattle.prolly_root.specs.FaultTexts.{root_fault_text};
    ghost use Rattle.prolly_root.specs.LookUpFault.{fault_of_flaw};

    /// The fault that the chunk of this number has.
    pub(crate) fn of_flaw(flaw: ChunkFlaw, chunk: u64) -> RootFault
        ensures is { result ≡ fault_of_flaw flaw chunk }
        ensures read { result ≡ RootFault.Read → ⊥ }
    {
        match flaw {
            ChunkFlaw::Reference => RootFault::Reference { chunk },
            ChunkFlaw::Entries => RootFault::Chunk { chunk },
            ChunkFlaw::Order => RootFault::KeysOutOfOrder { chunk },
            ChunkFlaw::Level => RootFault::Level { chunk },
        }
    }

    /// What is said of it.
    fn text(self) -> FaultText
        ensures { shown_text result ≡ root_fault_text self }
    {
        match self {
            RootFault::Memory => FaultText::Plain("out of memory"),
            RootFault::Read => FaultText::Plain("chunk file: read failed"),
            RootFault::Header => FaultText::Plain("chunk file: bad header"),
            RootFault::Version => FaultText::Plain("chunk file: wrong version"),
            RootFault::Truncated => FaultText::Plain("chunk file: truncated"),
            RootFault::Frame { chunk } => FaultText::Ending("chunk file: bad frame ", chunk),
            RootFault::Trailing => FaultText::Plain("chunk file: bytes after the end"),
            RootFault::Missing => FaultText::Plain("chunk file: chunks are missing"),
            RootFault::Reference { chunk } => {
                FaultText::Holding("chunk file: chunk ", chunk, " is not the one referred to")
            }
            RootFault::Chunk { chunk } => FaultText::Ending("chunk file: bad chunk ", chunk),
            RootFault::KeysOutOfOrder { chunk } => {
                FaultText::Ending("chunk file: keys out of order in chunk ", chunk)
            }
            RootFault::Level { chunk } => {
                FaultText::Ending("chunk file: wrong level in chunk ", chunk)
            }
        }
    }
}

impl Display for RootFault {
    ghost use Rattle.std.specs.Prelude.{Some};
    ghost use Rattle.prolly_root.specs.FaultTexts.{root_fault_text};
    ghost use Rattle.prolly_root.specs.LookUpFault.{fault_of_flaw};

    ghost output = { λ fault. Some (root_fault_text fault) };

    fn fmt<W: fmt::Write>(&self, f: &mut Formatter<W>) -> fmt::Result {
        self.text().fmt(f)
    }
}

impl Error for RootFault {}

impl From<AllocError> for RootFault {
    ghost use Rattle.prolly_root.specs.declared.root_fault.RootFault.TheVariants.{Memory};

    ghost from_gives = { λ _ fault. fault ≡ Memory };

    fn from(_: AllocError) -> Self {
        RootFault::Memory
    }
}

impl From<SourceFault> for RootFault {
    ghost use Rattle.prolly_root.specs.declared.root_fault.RootFault.TheVariants.{Read};

    ghost from_gives = { λ _ fault. fault ≡ Read };

    fn from(_: SourceFault) -> Self {
        RootFault::Read
    }
}
