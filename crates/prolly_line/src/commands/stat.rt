//! `stat`: its line, and what it asks.
ghost use Rattle.std.specs.Prelude.{IfOk, codes};
ghost use Rattle.prolly_line.specs.AcceptedWords.{AnswersFitting, IsAccepted, rows_in};
ghost use Rattle.prolly_line.specs.Line.{stat_line};
ghost use Rattle.prolly_line.specs.LocalArgs.{HasCommandLine};

use crate::arguments;
use crate::assembly::{Line, described, with_argument};
use crate::command::Command;
use crate::help::Help;
use crate::parse_fault::ParseFault;
use crate::values::{flag_of, notation_of, text_of};
use clap::ArgMatches;
use std::alloc::Global;

const HELP: Help<'static> = Help {
    about: "Print the numbers of a chunk file or of a record file",
    details: "Prints the numbers of a chunk file or of a record file. The first four bytes of
FILE tell which of the two it is: a chunk file begins with `PRLY`, and no good
record file does.

Of a chunk file it prints the text of the root, the --format and the --bits, and
the numbers of pairs, chunks and bytes. Then each level has a line: how many
chunks, entries and bytes it has, and how many bytes its smallest, its middle
and its largest chunk have. The bar at the end of the line grows by one `#` each
time the number of chunks doubles. The chunk file is checked first, as by
`check`.

Of a record file it prints the numbers of records, removals and bytes, and the
first and the last key.

Keys are shown in hexadecimal, or with --text as text, with the escapes of
`pack --text`. With --json all this is one line of JSON. Its keys are in
hexadecimal, and --text is ignored.",
    example: "Example: the numbers of a tree, level by level
  prolly stat days.prl",
};

/// What `--text` says where keys are printed.
const SHOWN_KEYS: &str = "Print keys as text, not hexadecimal";

/// `stat [--text] [--json] FILE`
pub(crate) fn stat_line<'a>(alloc: Global) -> Line<'a>
    ensures { IfOk result (HasCommandLine stat_line) }
{
    let text = arguments::text_flag(alloc, SHOWN_KEYS);
    let line = described(alloc, "stat", HELP).arg(text);
    let line = with_argument(line, arguments::json_flag(alloc));
    with_argument(
        line,
        arguments::file_word(alloc, "The chunk file or the record file"),
    )
}

/// What `stat` asks, from what clap found.
pub(crate) fn stat(alloc: Global, given: &ArgMatches<'_>) -> Result<Command, ParseFault>
    requires { IsAccepted (codes "stat", rows_in given.now) }
    ensures { AnswersFitting (codes "stat", rows_in given.now) result }
{
    let file = text_of(alloc, given, "file")?;
    let json = flag_of(given, "json");
    let notation = notation_of(given);
    Ok(Command::Stat {
        file,
        json,
        notation,
    })
}
