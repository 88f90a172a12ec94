//! What the program is asked to do.
ghost use Rattle.std.specs.Prelude.{◌≡◌, IfOk, IfErr, map, string_bytes, option_map};
ghost use Rattle.clap.specs.Words.{kind_of, subcommand_rows_of};
ghost use Rattle.prolly_line.specs.GivenCommand.{IsGivenBy, IsRefusalOf, IsRefusedBy};
ghost use Rattle.prolly_line.specs.GivenCommand.{IsWithinLimits};
ghost use Rattle.prolly_line.specs.AcceptedWords.{Answers, IsAccepted, rows_in};

use crate::commands;
use crate::line::program_line;
use crate::parse_fault::ParseFault;
use crate::root_pair::RootPair;
use crate::sought::Sought;
use crate::write_mode::WriteMode;
use clap::ArgMatches;
use clap::error::ErrorKind;
use prolly_entry::Ref;
use prolly_text::Notation;
use std::alloc::Global;

/// What the program is asked to do. File names are the words as they stand. A notation is that of
/// keys and values, in the words and in the lines that are read or printed.
#[derive(Drop)]
pub enum Command {
    /// Make a record file of the lines of standard input. Where `removals` is set, a line of text
    /// that is a key alone takes it away; for lines in hexadecimal it is ignored.
    Pack {
        out: String,
        notation: Notation,
        removals: bool,
        mode: WriteMode,
    },
    /// The same of an input of any size, whose lines may come in any order. Of a key that stands in
    /// several lines the last one counts; where `unique` is set, such a key is a fault. About
    /// `memory` megabytes of 1,000,000 bytes are used.
    PackSorted {
        out: String,
        notation: Notation,
        removals: bool,
        unique: bool,
        memory: u32,
        mode: WriteMode,
    },
    /// Make the tree of one record file, which comes from standard input. Where `chunk_bytes` is
    /// given, the bits are those by which a chunk has about so many bytes, and `bits` those of
    /// an input that shows no record. Without an output its mode is ignored.
    Scratch {
        bits: u8,
        chunk_bytes: Option<u32>,
        version: u8,
        out: Option<String>,
        mode: WriteMode,
    },
    /// Make the tree of record files, in threads. The bits and the bytes of a chunk say the same as
    /// for `Scratch`. Where `quiet` is set, no progress is shown.
    Build {
        bits: u8,
        chunk_bytes: Option<u32>,
        stages: u8,
        capacity: u32,
        max_records: u32,
        batch: u32,
        version: u8,
        out: String,
        files: Vec<String>,
        quiet: bool,
        mode: WriteMode,
    },
    /// Make the tree of a root with the changes of record files laid over it. The old file has that
    /// tree; where bits or a version are given, they are to be those that its header says. Where
    /// `quiet` is set, no progress is shown.
    Apply {
        root: Ref,
        bits: Option<u8>,
        version: Option<u8>,
        old: String,
        out: String,
        changes: Vec<String>,
        quiet: bool,
        mode: WriteMode,
    },
    /// Say where and why a file is not a good record file.
    Explain {
        file: String,
        notation: Notation,
    },
    /// Say which of the lines of standard input `Pack` would refuse, and why: the first one, or where
    /// `all` is set each of them, up to a hundred. Where `removals` is set, a line of text that is a
    /// key alone is a removal; for lines in hexadecimal it is ignored.
    ExplainLines {
        notation: Notation,
        removals: bool,
        all: bool,
    },
    /// Say whether a file is a lawful chunk file. The root and the version say the same as for
    /// `Get`.
    Check {
        file: String,
        root: Option<Ref>,
        version: u8,
    },
    /// The same of each of these files, one after another. Where `quiet` is set, nothing is printed of
    /// a lawful one.
    CheckFiles {
        files: Vec<String>,
        root: Option<Ref>,
        version: u8,
        quiet: bool,
    },
    /// Print the root that a chunk file names.
    Root {
        file: String,
    },
    /// Print the numbers of a chunk file or of a record file: where `json` is set, in a line of
    /// JSON, in which keys are in hexadecimal, and then the notation is ignored.
    Stat {
        file: String,
        json: bool,
        notation: Notation,
    },
    /// Print the value of a key: with a root, what the tree of it has in chunks of the version,
    /// and without one, what the file has, whose own version counts then. Where `raw` is set, these are
    /// the value's bytes and nothing else, and the notation is that of the key alone.
    Get {
        file: String,
        key: Vec<u8>,
        root: Option<Ref>,
        version: u8,
        notation: Notation,
        raw: bool,
    },
    /// Print what there is at each of the keys that the lines of the file `keys` stand for. The root
    /// and the version say the same as for `Get`.
    GetKeys {
        file: String,
        keys: String,
        root: Option<Ref>,
        version: u8,
        notation: Notation,
    },
    /// Print pairs in the order of keys, from a key on. The root and the version say the same as
    /// for `Get`.
    Scan {
        file: String,
        from: Vec<u8>,
        limit: u32,
        root: Option<Ref>,
        version: u8,
        notation: Notation,
    },
    /// Print the pair of a number, counted from 0 in the order of keys. The root and the version
    /// say the same as for `Get`.
    Nth {
        file: String,
        n: u64,
        root: Option<Ref>,
        version: u8,
        notation: Notation,
    },
    /// Write the pairs of a file, in lines of the notation `lines`, and else as a record file: to
    /// standard output where there is no output, and then the mode is ignored. The root and the
    /// version say the same as for `Get`.
    Dump {
        file: String,
        root: Option<Ref>,
        version: u8,
        out: Option<String>,
        lines: Option<Notation>,
        mode: WriteMode,
    },
    /// Say what turns the map of the file `old` into that of the file `new`: in a record file
    /// where there is an output, and else the mode is ignored. What is printed is how much has
    /// changed where `stat` is set, and else the changes, in lines, where there is no output. With
    /// roots it is the trees of these that are compared, in chunks of the version, and without them
    /// the files, whose own versions count then.
    Diff {
        old: String,
        new: String,
        roots: Option<RootPair>,
        version: u8,
        out: Option<String>,
        stat: bool,
        notation: Notation,
        mode: WriteMode,
    },
    /// Write a proof of what a file has at a key, in a range, or at many keys. The root and the
    /// version say the same as for `Get`.
    Prove {
        file: String,
        sought: Sought,
        root: Option<Ref>,
        version: u8,
        out: String,
        notation: Notation,
        mode: WriteMode,
    },
    /// Say what a proof shows of a key, of a range, or of many keys, to whoever knows the root and the
    /// version of the chunks. Without a file the proof comes from standard input.
    Verify {
        root: Ref,
        sought: Sought,
        version: u8,
        proof: Option<String>,
        notation: Notation,
    },
}

/// The command that the words after the program's name give.
pub fn parse(alloc: Global, words: &[String]) -> Result<Command, ParseFault>
    ensures given { IfOk result (IsGivenBy (map string_bytes words.now)) }
    ensures limits { IfOk result IsWithinLimits }
    ensures refused { IfErr result (IsRefusedBy (map string_bytes words.now)) }
{
    let matches = match program_line(alloc)?.try_get_matches_from(words) {
        Ok(matches) => matches,
        Err(error) => return Err(refusal(alloc, &error)),
    };
    let (name, given) = subcommand_of(&matches).unwrap();
    command_of(alloc, name, given)
}

/// What an error of clap's comes to.
pub(crate) fn refusal(alloc: Global, error: &clap::Error) -> ParseFault
    ensures { IsRefusalOf (kind_of error.now) result }
{
    let Ok(text) = format!(in alloc; "{error}") else {
        return ParseFault::Memory;
    };
    match error.kind() {
        ErrorKind::OutOfMemory => ParseFault::Memory,
        ErrorKind::DisplayHelp | ErrorKind::DisplayVersion => ParseFault::Help(text),
        _ => ParseFault::Usage(text),
    }
}

/// The subcommand that was met, with its matches.
fn subcommand_of<'b, 'a>(matches: &'b ArgMatches<'a>) -> Option<(&'a str, &'b ArgMatches<'a>)>
    ensures { option_map (λ p. (p.0.now, rows_in p.1.now)) result
        ≡ subcommand_rows_of matches.now }
{
    matches.subcommand()
}

/// The command of a subcommand that clap has accepted.
fn command_of(alloc: Global, name: &str, given: &ArgMatches<'_>) -> Result<Command, ParseFault>
    requires { IsAccepted (name.now, rows_in given.now) }
    ensures { Answers (name.now, rows_in given.now) result }
{
    match name {
        "pack" => commands::pack(alloc, given),
        "scratch" => commands::scratch(alloc, given),
        "build" => commands::build(alloc, given),
        "apply" => commands::apply(alloc, given),
        "explain" => commands::explain(alloc, given),
        "check" => commands::check(alloc, given),
        "root" => commands::root(alloc, given),
        "stat" => commands::stat(alloc, given),
        "get" => commands::get(alloc, given),
        "scan" => commands::scan(alloc, given),
        "nth" => commands::nth(alloc, given),
        "dump" => commands::dump(alloc, given),
        "diff" => commands::diff(alloc, given),
        "prove" => commands::prove(alloc, given),
        "verify" => commands::verify(alloc, given),
        _ => unreachable!(),
    }
}
