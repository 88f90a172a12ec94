//! `dump`: its line, and what it asks.
ghost use Rattle.std.specs.Prelude.{IfOk, codes};
ghost use Rattle.prolly_line.specs.AcceptedWords.{AnswersFitting, IsAccepted, rows_in};
ghost use Rattle.prolly_line.specs.Line.{dump_line};
ghost use Rattle.prolly_line.specs.LocalArgs.{HasCommandLine};

use crate::arguments;
use crate::assembly::{Line, described, with_argument};
use crate::command::Command;
use crate::commands::shared::{ALWAYS_ASIDE, CHUNK_FILE, with_mode, with_trust};
use crate::help::Help;
use crate::parse_fault::ParseFault;
use crate::values::{lines_of, mode_of, option_of, text_of, trust_of};
use clap::ArgMatches;
use std::alloc::Global;

const HELP: Help<'static> = Help {
    about: "Write the pairs of a chunk file as a record file, or as lines",
    details: "Writes all pairs of a chunk file as a record file. `scratch` and `build` make
the same chunk file of it again, at equal --bits and --format. They take at most
16,777,216 records from one file.

With --text or --hex it writes lines, one for each pair in the order of the
keys. With --text a line is a key, a tab and a value as text, and `pack --text`
makes the record file of them. With --hex alone a line is HEXKEY HEXVALUE, and
`pack` makes the record file of them.

The pairs go to OUT, or to standard output if OUT is not given. Without OUT,
--atomic, --sync and --force are ignored. Nothing else is printed.

Without --root the whole file is checked first, as by `check`. So a longer file
takes longer, a file over 1 GiB is refused, and --format is ignored.

With --root the file may be of any size. Each chunk is compared with the
reference above it, from ROOT down, before a pair below it is written. So what
is written is right for ROOT. The command ends at a chunk that does not fit.

OUT is replaced once what it is to hold is whole. So after a fault it is as it
was. An OUT that is a file of another kind is refused, unless --force is given.",
    example: "Example: the pairs of a tree, with the changes of a day, to the next tree
  prolly dump monday.prl monday.rec
  prolly build tuesday.prl monday.rec tuesday.rec",
};

/// What OUT says of a dump.
const DUMPED_FILE: &str = "The file to make; by default standard output";

/// What `--text` says of a dump.
const DUMPED_TEXT: &str = "Write lines KEY, tab, VALUE, and not a record file";

/// `dump [--text] [--hex] [--root ROOT] [--format V] [--atomic] [--sync] [--force] FILE [OUT]`
pub(crate) fn dump_line<'a>(alloc: Global) -> Line<'a>
    ensures { IfOk result (HasCommandLine dump_line) }
{
    let text = arguments::text_flag(alloc, DUMPED_TEXT);
    let line = described(alloc, "dump", HELP).arg(text);
    let line = with_argument(line, arguments::hex_flag(alloc));
    let line = with_mode(alloc, with_trust(alloc, line), ALWAYS_ASIDE);
    with_argument(
        with_argument(line, arguments::file_word(alloc, CHUNK_FILE)),
        arguments::optional_out_word(alloc, DUMPED_FILE),
    )
}

/// What `dump` asks, from what clap found.
pub(crate) fn dump(alloc: Global, given: &ArgMatches<'_>) -> Result<Command, ParseFault>
    requires { IsAccepted (codes "dump", rows_in given.now) }
    ensures { AnswersFitting (codes "dump", rows_in given.now) result }
{
    let (root, version) = trust_of(given)?;
    let file = text_of(alloc, given, "file")?;
    let out = option_of(alloc, given, "out")?;
    let lines = lines_of(given);
    let mode = mode_of(given);
    Ok(Command::Dump {
        file,
        root,
        version,
        out,
        lines,
        mode,
    })
}
