//! The faults of commands, each with its line and its status.
ghost use Rattle.std.specs.Prelude.{◌≡◌, Some};
ghost use Rattle.prolly_fault.specs.Faults.{fault_text, check_status, root_status, run_status};
ghost use Rattle.prolly_fault.specs.Faults.{fault_status, store_status, stream_status};

use crate::status;
use prolly_check::{CheckFault, StreamFault};
use prolly_io::SinkFault;
use prolly_link::RunFault;
use prolly_root::{ProofFault, RootFault};
use prolly_sort::{SorterFault, StoreFault};
use prolly_text::{KeysFault, LinesFault, PackFault, ReadLinesFault};
use std::alloc::AllocError;
use std::fmt;
use std::fmt::{Display, Formatter};
use thiserror::Error;

/// How many bytes a command reads at most of an input that it reads whole. One that has more is
/// [refused](Fault::InputTooLong).
pub const INPUT_LIMIT: u32 = 1_073_741_824;

/// Why a command is not done. Its text is one line, without the program's name and the newline.
#[derive(Clone, Copy, Debug, PartialEq, Eq, Error)]
pub enum Fault {
    /// Memory was refused.
    Memory,
    /// An input that is no chunk file can't be read. It is told of as file 0.
    Read,
    /// An output took only a part of what was written.
    Write,
    /// A run over record files has no answer. One record file from standard input is file 0.
    Run(RunFault),
    /// A text is not packed.
    Pack(LinesFault),
    /// A line is longer than any that stands for a record. Lines are numbered from 0.
    LineTooLong { line: u64 },
    /// A text has more lines than can be numbered.
    TooManyLines,
    /// The lines of these two numbers have one key, and each key is to come once.
    DoubledKey { first: u64, second: u64 },
    /// Sorted runs can't wait beside an output, or can't be merged.
    Store(StoreFault),
    /// A text is no list of keys.
    Keys(KeysFault),
    /// A file is no lawful chunk file.
    Check(CheckFault),
    /// A file is not that of the tree of a root.
    Stream(StreamFault),
    /// The old file of two is no lawful chunk file.
    CheckOld(CheckFault),
    /// The new file of two is no lawful chunk file.
    CheckNew(CheckFault),
    /// Bytes are no proof of what a map with the root has at the key, or at the keys of a set.
    Proof(ProofFault),
    /// A file has no answer to a look-up by a root.
    Root(RootFault),
    /// The old file of two has not the tree of its root.
    RootOld(RootFault),
    /// The new file of two has not the tree of its root.
    RootNew(RootFault),
    /// The leaves of the old file's tree are not cut by the bits that its header says.
    WrongBits,
    /// The header of the old file says other bits, or another version, than are given.
    OtherHeader,
    /// A chunk file of version One has no counts, by which a pair is found by its number.
    NoCounts,
    /// An input is longer than the program reads.
    InputTooLong,
    /// The word for a key is no key in hexadecimal.
    BadKey,
    /// The word for a key is no key of text.
    BadTextKey,
    /// The word for a root is not the text of a reference.
    BadRoot,
    /// Of the roots of two trees one is given alone.
    LoneRoot,
    /// A word of the command line is not UTF-8.
    NotUnicode,
    /// The output is the file or the pipe to which standard output goes.
    OutIsStdout,
}

impl Fault {
    /// The status with which the program ends.
    pub fn status(self) -> u8
        ensures { result ≡ fault_status self }
    {
        match self {
            Fault::Memory
            | Fault::Pack(LinesFault::Pack(PackFault::Memory))
            | Fault::Keys(KeysFault::Memory) => status::RESOURCES,
            Fault::Run(fault) => run_status(fault),
            Fault::Store(fault) => store_status(fault),
            Fault::Pack(_)
            | Fault::LineTooLong { .. }
            | Fault::TooManyLines
            | Fault::DoubledKey { .. }
            | Fault::Keys(_)
            | Fault::WrongBits
            | Fault::OtherHeader => status::RECORDS,
            Fault::Check(fault) | Fault::CheckOld(fault) | Fault::CheckNew(fault) => {
                check_status(fault)
            }
            Fault::Stream(fault) => stream_status(fault),
            Fault::Root(fault) | Fault::RootOld(fault) | Fault::RootNew(fault) => {
                root_status(fault)
            }
            Fault::Proof(_) | Fault::NoCounts => status::CHUNKS,
            Fault::Read | Fault::Write | Fault::InputTooLong | Fault::OutIsStdout => status::FILES,
            Fault::BadKey
            | Fault::BadTextKey
            | Fault::BadRoot
            | Fault::LoneRoot
            | Fault::NotUnicode => status::WORDS,
        }
    }
}

impl From<AllocError> for Fault {
    ghost use Rattle.prolly_fault.specs.declared.fault.Fault.TheVariants.{Memory};

    ghost from_gives = { λ _ fault. fault ≡ Memory };

    fn from(_: AllocError) -> Self {
        Fault::Memory
    }
}

impl From<SinkFault> for Fault {
    ghost use Rattle.prolly_fault.specs.declared.fault.Fault.TheVariants.{Write};

    ghost from_gives = { λ _ fault. fault ≡ Write };

    fn from(_: SinkFault) -> Self {
        Fault::Write
    }
}

impl From<RunFault> for Fault {
    ghost use Rattle.prolly_fault.specs.declared.fault.Fault.TheVariants.{Run};

    ghost from_gives = { λ run fault. fault ≡ Run run };

    fn from(run: RunFault) -> Self {
        Fault::Run(run)
    }
}

impl From<LinesFault> for Fault {
    ghost use Rattle.prolly_fault.specs.declared.fault.Fault.TheVariants.{Pack};

    ghost from_gives = { λ pack fault. fault ≡ Pack pack };

    fn from(pack: LinesFault) -> Self {
        Fault::Pack(pack)
    }
}

impl From<ReadLinesFault> for Fault {
    ghost use Rattle.prolly_fault.specs.Faults.{of_read_lines};

    ghost from_gives = { λ lines fault. fault ≡ of_read_lines lines };

    fn from(lines: ReadLinesFault) -> Self {
        match lines {
            ReadLinesFault::Read => Fault::Read,
            ReadLinesFault::Line(fault) => Fault::Pack(fault),
            ReadLinesFault::LineTooLong { line } => Fault::LineTooLong { line },
            ReadLinesFault::TooManyLines => Fault::TooManyLines,
        }
    }
}

impl From<SorterFault> for Fault {
    ghost use Rattle.prolly_fault.specs.Faults.{of_sorter};

    ghost from_gives = { λ sorter fault. fault ≡ of_sorter sorter };

    fn from(sorter: SorterFault) -> Self {
        match sorter {
            SorterFault::Store(fault) => Fault::Store(fault),
            SorterFault::Doubled { first, second } => Fault::DoubledKey { first, second },
        }
    }
}

impl From<KeysFault> for Fault {
    ghost use Rattle.prolly_fault.specs.declared.fault.Fault.TheVariants.{Keys};

    ghost from_gives = { λ keys fault. fault ≡ Keys keys };

    fn from(keys: KeysFault) -> Self {
        Fault::Keys(keys)
    }
}

fn store_status(fault: StoreFault) -> u8
    ensures { result ≡ store_status fault }
{
    match fault {
        StoreFault::Memory => status::RESOURCES,
        StoreFault::Make | StoreFault::Write | StoreFault::Read => status::FILES,
        StoreFault::TooMany => status::RECORDS,
    }
}

fn check_status(fault: CheckFault) -> u8
    ensures { result ≡ check_status fault }
{
    match fault {
        CheckFault::Memory => status::RESOURCES,
        CheckFault::Read => status::FILES,
        _ => status::CHUNKS,
    }
}

fn stream_status(fault: StreamFault) -> u8
    ensures { result ≡ stream_status fault }
{
    match fault {
        StreamFault::Check(fault) => check_status(fault),
        _ => status::CHUNKS,
    }
}

fn root_status(fault: RootFault) -> u8
    ensures { result ≡ root_status fault }
{
    match fault {
        RootFault::Memory => status::RESOURCES,
        RootFault::Read => status::FILES,
        _ => status::CHUNKS,
    }
}

fn run_status(fault: RunFault) -> u8
    ensures { result ≡ run_status fault }
{
    match fault {
        RunFault::Truncated { .. }
        | RunFault::KeyTooLong { .. }
        | RunFault::ValueTooLong { .. }
        | RunFault::OutOfOrder { .. }
        | RunFault::TooManyRecords { .. }
        | RunFault::TooManyFiles => status::RECORDS,
        RunFault::Read { .. } | RunFault::Write => status::FILES,
        RunFault::Memory | RunFault::NoThread | RunFault::Lost => status::RESOURCES,
        RunFault::TooTall => status::TOO_TALL,
    }
}

impl Display for Fault {
    ghost output = { λ fault. Some (fault_text fault) };

    fn fmt<W: fmt::Write>(&self, f: &mut Formatter<W>) -> fmt::Result {
        match self {
            Fault::Memory
            | Fault::CheckOld(CheckFault::Memory)
            | Fault::CheckNew(CheckFault::Memory)
            | Fault::RootOld(RootFault::Memory)
            | Fault::RootNew(RootFault::Memory) => f.write_str("out of memory"),
            Fault::Read => f.write_str("file 0: read failed"),
            Fault::Write => f.write_str("write failed"),
            Fault::Run(fault) => fault.fmt(f),
            Fault::Pack(fault) => fault.fmt(f),
            Fault::LineTooLong { line } => write!(f, "line {line}: line too long"),
            Fault::TooManyLines => f.write_str("too many lines"),
            Fault::DoubledKey { first, second } => {
                write!(f, "line {second}: has the key of line {first}")
            }
            Fault::Store(fault) => fault.fmt(f),
            Fault::Keys(fault) => fault.fmt(f),
            Fault::Check(fault) => fault.fmt(f),
            Fault::Stream(fault) => fault.fmt(f),
            Fault::CheckOld(fault) => write!(f, "old {fault}"),
            Fault::CheckNew(fault) => write!(f, "new {fault}"),
            Fault::Proof(fault) => fault.fmt(f),
            Fault::Root(fault) => fault.fmt(f),
            Fault::RootOld(fault) => write!(f, "old {fault}"),
            Fault::RootNew(fault) => write!(f, "new {fault}"),
            Fault::WrongBits => f.write_str("the bits are not those of the tree"),
            Fault::OtherHeader => f.write_str("OLD has other --bits or another --format"),
            Fault::NoCounts => f.write_str("chunk file: no counts"),
            Fault::InputTooLong => f.write_str("input too long"),
            Fault::BadKey => f.write_str("not a key in hexadecimal"),
            Fault::BadTextKey => f.write_str("not a key of text"),
            Fault::BadRoot => f.write_str("not the text of a root"),
            Fault::LoneRoot => f.write_str("one of --old-root and --new-root is missing"),
            Fault::NotUnicode => f.write_str("a word is not UTF-8"),
            Fault::OutIsStdout => f.write_str("OUT is also standard output"),
        }
    }
}
