//! Why bytes are no chunk file.

use prolly_entry::FaultText;
use prolly_io::{HeaderFault, ReadFault, WholeFault};
use std::alloc::AllocError;
use std::error::Error;
use std::fmt;
use std::fmt::{Display, Formatter};

/// Why a chunk file is refused. Chunks are numbered from 0, in the order of the file.
#[derive(Clone, Copy, Debug, PartialEq, Eq)]
pub enum CheckFault {
    /// Memory was refused.
    Memory,
    /// The source failed.
    Read,
    /// The source has more bytes than are allowed.
    TooLong,
    /// One of the first six bytes may not stand there.
    BadHeader,
    /// This frame begins with a byte that begins neither a frame nor an end record.
    BadFrame { chunk: usize },
    /// The bytes end before the end record does.
    Truncated,
    /// Bytes follow the end record.
    Trailing,
    /// This chunk is not a level and whole lawful entries of that level's kind.
    BadChunk { chunk: usize },
    /// In this chunk is the first key that is not greater than the one before.
    KeysOutOfOrder { chunk: usize },
    /// This chunk is the first that the file of the same pairs has not, or has otherwise, or that
    /// only the file of the same pairs has.
    NotCanonical { chunk: usize },
    /// The end record has another root or another number of chunks.
    BadEnd,
    /// This chunk is the first whose reference an earlier one has too.
    Collision { chunk: usize },
}

impl CheckFault {
    ghost use Rattle.std.specs.Prelude.{◌≡◌};
    ghost use Rattle.prolly_entry.specs.FaultTexts.{shown_text};
    ghost use Rattle.prolly_check.specs.FaultTexts.{check_fault_text};

    /// What is said of it.
    fn text(self) -> FaultText
        ensures { shown_text result ≡ check_fault_text self }
    {
        match self {
            CheckFault::Memory => FaultText::Plain("out of memory"),
            CheckFault::Read => FaultText::Plain("chunk file: read failed"),
            CheckFault::TooLong => FaultText::Plain("chunk file: too long"),
            CheckFault::BadHeader => FaultText::Plain("chunk file: bad header"),
            CheckFault::BadFrame { chunk } => {
                FaultText::Ending("chunk file: bad frame ", chunk as u64)
            }
            CheckFault::Truncated => FaultText::Plain("chunk file: truncated"),
            CheckFault::Trailing => FaultText::Plain("chunk file: bytes after the end"),
            CheckFault::BadChunk { chunk } => {
                FaultText::Ending("chunk file: bad chunk ", chunk as u64)
            }
            CheckFault::KeysOutOfOrder { chunk } => {
                FaultText::Ending("chunk file: keys out of order in chunk ", chunk as u64)
            }
            CheckFault::NotCanonical { chunk } => {
                FaultText::Holding("chunk file: chunk ", chunk as u64, " is not canonical")
            }
            CheckFault::BadEnd => FaultText::Plain("chunk file: bad end record"),
            CheckFault::Collision { chunk } => FaultText::Holding(
                "chunk file: reference of chunk ",
                chunk as u64,
                " is used twice",
            ),
        }
    }
}

impl Display for CheckFault {
    ghost use Rattle.std.specs.Prelude.{Some};
    ghost use Rattle.prolly_check.specs.FaultTexts.{check_fault_text};

    ghost output = { λ fault. Some (check_fault_text fault) };

    fn fmt<W: fmt::Write>(&self, f: &mut Formatter<W>) -> fmt::Result {
        self.text().fmt(f)
    }
}

impl Error for CheckFault {}

impl From<AllocError> for CheckFault {
    ghost use Rattle.std.specs.Prelude.{◌≡◌};
    ghost use Rattle.prolly_check.specs.declared.verdict.fault.CheckFault.TheVariants.{Memory};

    ghost from_gives = { λ _ fault. fault ≡ Memory };

    fn from(_: AllocError) -> Self {
        CheckFault::Memory
    }
}

impl From<WholeFault> for CheckFault {
    ghost use Rattle.std.specs.Prelude.{◌≡◌};
    ghost use Rattle.prolly_check.specs.Verdict.{read_fault};

    ghost from_gives = { λ whole fault. fault ≡ read_fault whole };

    fn from(whole: WholeFault) -> Self {
        match whole {
            WholeFault::Memory => CheckFault::Memory,
            WholeFault::Read => CheckFault::Read,
            WholeFault::TooLong => CheckFault::TooLong,
        }
    }
}

impl From<ReadFault> for CheckFault {
    ghost use Rattle.std.specs.Prelude.{◌≡◌};
    ghost use Rattle.prolly_check.specs.Verdict.{fault_of_read};

    ghost from_gives = { λ read fault. fault ≡ fault_of_read read };

    fn from(read: ReadFault) -> Self {
        match read {
            ReadFault::Memory => CheckFault::Memory,
            ReadFault::Read => CheckFault::Read,
        }
    }
}

impl From<HeaderFault> for CheckFault {
    ghost use Rattle.std.specs.Prelude.{◌≡◌};
    ghost use Rattle.prolly_check.specs.Verdict.{fault_of_header};

    ghost from_gives = { λ header fault. fault ≡ fault_of_header header };

    fn from(header: HeaderFault) -> Self {
        match header {
            HeaderFault::Truncated => CheckFault::Truncated,
            HeaderFault::BadByte => CheckFault::BadHeader,
        }
    }
}
