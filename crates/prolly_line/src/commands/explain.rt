//! `explain`: its line, and what it asks.
ghost use Rattle.std.specs.Prelude.{IfOk, codes, false, true};
ghost use Rattle.prolly_line.specs.AcceptedWords.{Answers, AnswersFitting, DoLinesFit, IsAccepted};
ghost use Rattle.prolly_line.specs.AcceptedWords.{rows_in};
ghost use Rattle.prolly_line.specs.GivenCommand.{GivesFlag, HasFields};
ghost use Rattle.prolly_line.specs.Line.{explain_line};
ghost use Rattle.prolly_line.specs.LocalArgs.{HasCommandLine};

use crate::arguments;
use crate::assembly::{Line, described_as, with_argument};
use crate::command::Command;
use crate::help::Help;
use crate::misfit::Misfit;
use crate::parse_fault::ParseFault;
use crate::values::{flag_of, notation_of, text_of};
use clap::ArgMatches;
use std::alloc::Global;

const HELP: Help<'static> = Help {
    about: "Say what is wrong with a record file, or with lines for one",
    details: "Reads a record file as `build` does, and says where and why it is not good. It
is good if it has at most 16,777,216 records, if all of them are whole, if no
key and no value is too long, and if the keys rise strictly.

If it is good, this prints `ok` and the number of its records.

If it is not good, this prints which record is the first flawed one, counted
from 0, and the offset of its first byte. Then it prints what is wrong with it,
its key, and the key before it, if there are such. If a key has more than 64
bytes, it prints the first 64. The exit status is then 1.

Keys are shown in hexadecimal, or with --text as text, with the escapes of
`pack --text`.

With --lines, leave FILE out. Lines are then read from standard input as `pack`
reads them, with the same --text and --removals. For the first line that `pack`
would refuse, this prints its number, counted from 1, the byte where it begins,
its first 64 bytes with escapes, what is wrong, and what would be right. With
--all it prints this for each such line, up to a hundred. The exit status is 1
if there is one.",
    example: "Examples: what is wrong with a record file that `build` refuses, and with a
table of text that `pack` refuses
  prolly explain monday.rec
  prolly explain --lines --text < monday.txt",
};

const USAGE: &str = "prolly explain [OPTIONS] <FILE>
       prolly explain [OPTIONS] --lines";

/// `explain [--text] [--lines] [--removals] [--all] [FILE]`
pub(crate) fn explain_line<'a>(alloc: Global) -> Line<'a>
    ensures { IfOk result (HasCommandLine explain_line) }
{
    let text = arguments::text_flag(
        alloc,
        "Print keys as text; with --lines, take lines of text",
    );
    let removals = arguments::removals_flag(
        alloc,
        "With --lines and --text, a line of a key alone removes the key",
    );
    let line = described_as(alloc, "explain", USAGE, HELP).arg(text);
    let line = with_argument(line, arguments::lines_flag(alloc));
    let line = with_argument(line, removals);
    let line = with_argument(line, arguments::all_flag(alloc));
    with_argument(line, arguments::optional_file_word(alloc))
}

/// What `explain` asks, from what clap found.
pub(crate) fn explain(alloc: Global, given: &ArgMatches<'_>) -> Result<Command, ParseFault>
    requires { IsAccepted (codes "explain", rows_in given.now) }
    ensures { Answers (codes "explain", rows_in given.now) result }
{
    match Misfit::of_lines(given) {
        Some(misfit) => Err(misfit.fault(alloc, explain_line(alloc))),
        None if flag_of(given, "lines") => Ok(explain_lines(given)),
        None => explain_file(alloc, given),
    }
}

/// The same of lines, where the words fit.
fn explain_lines(given: &ArgMatches<'_>) -> Command
    requires fit { DoLinesFit (rows_in given.now) }
    requires lines { GivesFlag (rows_in given.now) (codes "lines") true }
    ensures { HasFields result (codes "explain", rows_in given.now) }
{
    Command::ExplainLines {
        notation: notation_of(given),
        removals: flag_of(given, "removals"),
        all: flag_of(given, "all"),
    }
}

/// The same of a file.
fn explain_file(alloc: Global, given: &ArgMatches<'_>) -> Result<Command, ParseFault>
    requires fit { DoLinesFit (rows_in given.now) }
    requires none { GivesFlag (rows_in given.now) (codes "lines") false }
    ensures { AnswersFitting (codes "explain", rows_in given.now) result }
{
    let file = text_of(alloc, given, "file")?;
    let notation = notation_of(given);
    Ok(Command::Explain { file, notation })
}
