//! What stops a run.
ghost use Rattle.std.specs.Prelude.{◌≡◌, ◌++◌, Some, codes};
ghost use Rattle.std.specs.Fmt.{decimal};
ghost use Rattle.prolly_entry.specs.FaultTexts.{shown_text};
ghost use Rattle.prolly_link.specs.FaultTexts.{record_text, run_text};

use prolly_entry::FaultText;
use std::error::Error;
use std::fmt;
use std::fmt::{Display, Formatter};

/// Why a run has no answer. `file` is the number of a record file, and `place` that of a record in
/// it.
#[derive(Clone, Copy, PartialEq, Eq, Debug)]
pub enum RunFault {
    /// Memory was refused.
    Memory,
    /// A read of the file failed.
    Read { file: u32 },
    /// The file's bytes end inside the record.
    Truncated { file: u32, place: u32 },
    /// The key's length is over 1,024.
    KeyTooLong { file: u32, place: u32 },
    /// The value's length is over 65,536, and marks no removal.
    ValueTooLong { file: u32, place: u32 },
    /// The key is not greater than the key of the record before.
    OutOfOrder { file: u32, place: u32 },
    /// As many records of the file as are allowed are good, and a further byte follows.
    TooManyRecords { file: u32 },
    /// A write of the output failed, or its flush.
    Write,
    /// The tree needs more levels than are allowed.
    TooTall,
    /// A worker was not allowed to start, or no thread could be had for it.
    NoThread,
    /// An end of a link was dropped before its time.
    Lost,
    /// There are more than 16 record files, or more than 15 beside an old tree.
    TooManyFiles,
}

impl RunFault {
    /// What is said of it.
    fn text(self) -> FaultText
        ensures { shown_text result ≡ run_text self }
    {
        match self {
            RunFault::Memory => FaultText::Plain("out of memory"),
            RunFault::Read { file } => of_file(file, ": read failed"),
            RunFault::Truncated { file, place } => of_record(file, place, " is cut"),
            RunFault::KeyTooLong { file, place } => of_record(file, place, ": key too long"),
            RunFault::ValueTooLong { file, place } => of_record(file, place, ": value too long"),
            RunFault::OutOfOrder { file, place } => of_record(file, place, ": key out of order"),
            RunFault::TooManyRecords { file } => of_file(file, ": too many records"),
            RunFault::Write => FaultText::Plain("write failed"),
            RunFault::TooTall => FaultText::Plain("tree too tall"),
            RunFault::NoThread => FaultText::Plain("a thread could not be started"),
            RunFault::Lost => FaultText::Plain("a worker was lost"),
            RunFault::TooManyFiles => FaultText::Plain("too many files"),
        }
    }
}

fn of_file(file: u32, text: &'static str) -> FaultText
    ensures { shown_text result ≡ codes "file " ++ decimal file ++ text.now }
{
    FaultText::Holding("file ", u64::from(file), text)
}

fn of_record(file: u32, place: u32, text: &'static str) -> FaultText
    ensures { shown_text result ≡ record_text file place text.now }
{
    FaultText::HoldingTwo(
        "file ",
        u64::from(file),
        ": record ",
        u64::from(place),
        text,
    )
}

impl Display for RunFault {
    ghost output = { λ fault. Some (run_text fault) };

    fn fmt<W: fmt::Write>(&self, f: &mut Formatter<W>) -> fmt::Result {
        self.text().fmt(f)
    }
}

impl Error for RunFault {}
