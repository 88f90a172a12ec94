//! `pack`: its line, and what it asks.
ghost use Rattle.std.specs.Prelude.{IfOk, codes, false, true};
ghost use Rattle.clap.specs.Words.{App};
ghost use Rattle.prolly_line.specs.AcceptedWords.{Answers, AnswersFitting, DoesSortFit, IsAccepted};
ghost use Rattle.prolly_line.specs.AcceptedWords.{rows_in};
ghost use Rattle.prolly_line.specs.GivenCommand.{GivesFlag};
ghost use Rattle.prolly_line.specs.Line.{pack_line, with_sort};
ghost use Rattle.prolly_line.specs.LocalArgs.{HasCommandLine};

use crate::arguments;
use crate::assembly::{Line, called, described, with_argument};
use crate::command::Command;
use crate::commands::shared::{ALWAYS_ASIDE, with_mode};
use crate::help::Help;
use crate::misfit::Misfit;
use crate::parse_fault::ParseFault;
use crate::values::{flag_of, memory_of, mode_of, notation_of, text_of};
use clap::ArgMatches;
use std::alloc::Global;

const HELP: Help<'static> = Help {
    about: "Make a record file from lines of text",
    details: "Makes a record file from lines of text on standard input.

Each line is a record:
  HEXKEY HEXVALUE   a pair: put the value at the key
  HEXKEY -          a removal: take the key away
Keys and values are in hexadecimal, two digits a byte, with one space between
them. A key has at most 1,024 bytes, a value at most 65,536. Keys must rise
strictly from line to line, compared byte by byte. `pack` does not test that,
but `scratch` and `build` refuse a record file whose keys do not rise.

With --text each line is text: a key, a tab and a value. A backslash begins an
escape, as in PostgreSQL's COPY: \\b \\t \\n \\v \\f \\r and \\\\, and \\xHH for any
byte. A tab, a newline, a carriage return and a backslash in a key or a value
must be escaped. All other bytes may stand as they are, even if they are no
UTF-8. With --removals, too, a line that is a key alone takes the key away.

With --sort lines may come in any order, and the input may be of any size.
Without it, the input has at most 1,073,741,824 bytes. If a key stands in
several lines, the last one counts. With --unique such a key is a fault, which
names both lines by their numbers, counted from 0. About MB megabytes of
1,000,000 bytes are used, as --memory says, and for a moment half as much again.
Lines that do not fit are written beside OUT in sorted runs, which are gone
afterwards. OUT has to be a file.

Prints the number of records.

OUT is replaced once the record file is whole. So after a fault it is as it was,
unless only standard output failed. An OUT that has bytes and does not begin as
a record file does is refused, unless --force is given.",
    example: "Examples: put 31 at 61, and take 62 away; and lines that are not sorted
  printf '61 31\\n62 -\\n' | prolly pack changes.rec
  printf 'pear\\t5\\napple\\t3\\n' | prolly pack --sort --text fruit.rec",
};

/// `pack [--text] [--removals] [--sort] [--unique] [--memory MB] [--atomic] [--sync] [--force] OUT`
pub(crate) fn pack_line<'a>(alloc: Global) -> Line<'a>
    ensures { IfOk result (HasCommandLine pack_line) }
{
    let text = arguments::text_flag(alloc, "Read lines KEY, tab, VALUE of text, not hexadecimal");
    let removals = arguments::removals_flag(
        alloc,
        "With --text, a line of a key alone removes the key",
    );
    let line = described(alloc, "pack", HELP).arg(text);
    let line = with_argument(line, removals);
    let line = with_mode(alloc, with_sort(alloc, line), ALWAYS_ASIDE);
    with_argument(line, arguments::out_word(alloc, "The record file to make"))
}

/// Adds the options that let lines come in any order.
fn with_sort<'a>(alloc: Global, line: Line<'a>) -> Line<'a>
    ensures { (app : App) → IfOk line.entry (HasCommandLine app)
        → IfOk result (HasCommandLine (with_sort app)) }
{
    let line = with_argument(line, arguments::sort_flag(alloc));
    let line = with_argument(line, arguments::unique_flag(alloc));
    with_argument(line, arguments::memory_option(alloc))
}

/// What `pack` asks, from what clap found.
pub(crate) fn pack(alloc: Global, given: &ArgMatches<'_>) -> Result<Command, ParseFault>
    requires { IsAccepted (codes "pack", rows_in given.now) }
    ensures { Answers (codes "pack", rows_in given.now) result }
{
    match Misfit::of_sort(given) {
        Some(misfit) => Err(misfit.fault(alloc, called(pack_line(alloc), "prolly pack"))),
        None if flag_of(given, "sort") => pack_sorted(alloc, given),
        None => pack_as_they_come(alloc, given),
    }
}

/// The same of lines in any order, where the words fit.
fn pack_sorted(alloc: Global, given: &ArgMatches<'_>) -> Result<Command, ParseFault>
    requires accepted { IsAccepted (codes "pack", rows_in given.now) }
    requires sort { GivesFlag (rows_in given.now) (codes "sort") true }
    ensures { AnswersFitting (codes "pack", rows_in given.now) result }
{
    let out = text_of(alloc, given, "out")?;
    let notation = notation_of(given);
    let removals = flag_of(given, "removals");
    let unique = flag_of(given, "unique");
    let memory = memory_of(given);
    let mode = mode_of(given);
    Ok(Command::PackSorted {
        out,
        notation,
        removals,
        unique,
        memory,
        mode,
    })
}

/// The same of lines that come in their order.
fn pack_as_they_come(alloc: Global, given: &ArgMatches<'_>) -> Result<Command, ParseFault>
    requires accepted { IsAccepted (codes "pack", rows_in given.now) }
    requires fit { DoesSortFit (rows_in given.now) }
    requires none { GivesFlag (rows_in given.now) (codes "sort") false }
    ensures { AnswersFitting (codes "pack", rows_in given.now) result }
{
    let out = text_of(alloc, given, "out")?;
    let notation = notation_of(given);
    let removals = flag_of(given, "removals");
    let mode = mode_of(given);
    Ok(Command::Pack {
        out,
        notation,
        removals,
        mode,
    })
}
