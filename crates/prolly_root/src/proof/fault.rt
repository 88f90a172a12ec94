//! Why bytes prove nothing.
ghost use Rattle.prolly_root.specs.ProofFault.{proof_fault};

use prolly_entry::FaultText;
use prolly_look_up::ChunkFlaw;
use std::error::Error;
use std::fmt;
use std::fmt::{Display, Formatter};

/// The first fault of bytes that are no proof. Chunks are numbered from 0, which is the root's.
#[derive(Clone, Copy, Debug, PartialEq, Eq)]
pub enum ProofFault {
    /// The bytes do not begin as a proof does: they are something else.
    Header,
    /// They begin as a proof over chunks of the other version: make it over the right tree, or
    /// verify it by the version that this tree has.
    Version,
    /// They end before the proof does: a part of it was lost.
    Truncated,
    /// Where this chunk's frame should begin there is a byte that begins none.
    Frame { chunk: usize },
    /// This chunk is not the one that the chunk above it, or the root, refers to: it was changed,
    /// or it is of another tree.
    Reference { chunk: usize },
    /// This chunk is the one that is referred to, but not a level and whole lawful entries of that
    /// level's kind: no tree has it.
    Chunk { chunk: usize },
    /// In this chunk, which is the one that is referred to, a key is not greater than the one
    /// before it: no tree has it.
    KeysOutOfOrder { chunk: usize },
    /// This chunk is the one that is referred to, but does not stand one level below the one above
    /// it: no tree has it there.
    Level { chunk: usize },
    /// Bytes follow the proof.
    Trailing,
}

impl ProofFault {
    ghost use Rattle.std.specs.Prelude.{◌≡◌};
    ghost use Rattle.prolly_entry.specs.FaultTexts.{shown_text};
    ghost use Rattle.prolly_root.specs.FaultTexts.{proof_fault_text};

    /// The fault that the chunk of this number has.
    pub fn of_flaw(flaw: ChunkFlaw, chunk: usize) -> ProofFault
        ensures { result ≡ proof_fault chunk flaw }
    {
        match flaw {
            ChunkFlaw::Reference => ProofFault::Reference { chunk },
            ChunkFlaw::Entries => ProofFault::Chunk { chunk },
            ChunkFlaw::Order => ProofFault::KeysOutOfOrder { chunk },
            ChunkFlaw::Level => ProofFault::Level { chunk },
        }
    }

    /// What is said of it.
    fn text(self) -> FaultText
        ensures { shown_text result ≡ proof_fault_text self }
    {
        match self {
            ProofFault::Header => FaultText::Plain("proof: bad header"),
            ProofFault::Version => FaultText::Plain("proof: wrong version"),
            ProofFault::Truncated => FaultText::Plain("proof: truncated"),
            ProofFault::Frame { chunk } => FaultText::Ending("proof: bad frame ", chunk as u64),
            ProofFault::Reference { chunk } => {
                FaultText::Holding("proof: chunk ", chunk as u64, " is not the one referred to")
            }
            ProofFault::Chunk { chunk } => FaultText::Ending("proof: bad chunk ", chunk as u64),
            ProofFault::KeysOutOfOrder { chunk } => {
                FaultText::Ending("proof: keys out of order in chunk ", chunk as u64)
            }
            ProofFault::Level { chunk } => {
                FaultText::Ending("proof: wrong level in chunk ", chunk as u64)
            }
            ProofFault::Trailing => FaultText::Plain("proof: bytes after the end"),
        }
    }
}

impl Display for ProofFault {
    ghost use Rattle.std.specs.Prelude.{Some};
    ghost use Rattle.prolly_root.specs.FaultTexts.{proof_fault_text};

    ghost output = { λ fault. Some (proof_fault_text fault) };

    fn fmt<W: fmt::Write>(&self, f: &mut Formatter<W>) -> fmt::Result {
        self.text().fmt(f)
    }
}

impl Error for ProofFault {}
