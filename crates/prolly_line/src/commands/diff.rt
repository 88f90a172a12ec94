//! `diff`: its line, and what it asks.
ghost use Rattle.std.specs.Prelude.{IfOk, codes};
ghost use Rattle.clap.specs.Words.{App};
ghost use Rattle.prolly_line.specs.AcceptedWords.{AnswersFitting, IsAccepted, rows_in};
ghost use Rattle.prolly_line.specs.Line.{diff_line, with_roots};
ghost use Rattle.prolly_line.specs.LocalArgs.{HasCommandLine};

use crate::arguments;
use crate::assembly::{Line, described, with_argument};
use crate::command::Command;
use crate::commands::shared::{ALWAYS_ASIDE, with_mode};
use crate::help::Help;
use crate::parse_fault::ParseFault;
use crate::values::{byte_of, flag_of, mode_of, notation_of, option_of, roots_of, text_of};
use clap::ArgMatches;
use std::alloc::Global;

const HELP: Help<'static> = Help {
    about: "Print the changes from one chunk file to another",
    details: "Prints the changes that turn the map of OLD into that of NEW. For each key at
which the two differ, in the order of the keys, it prints what NEW has.

A change is a line that `pack` reads: HEXKEY HEXVALUE or, if NEW lacks the key,
HEXKEY and a dash. With --text it is a line that `pack --text --removals` reads.
Without --out, --atomic, --sync and --force are ignored.

With --out the changes are written to FILE as a record file, and nothing is
printed. `build` of OLD's pairs and of FILE makes NEW's tree again, at equal
--bits and --format.

With --stat one line is printed in place of the changes, even with --out:
  added A changed C removed R chunks N bytes B
A is the number of keys that NEW has and OLD lacks, C that of keys whose value
is another one, R that of keys that NEW lacks. N is the number of chunks of NEW
that OLD does not have, and B that of their bytes: what a holder of OLD lacks of
NEW.

Without roots both files are checked first, as by `check`. So longer files take
longer, a file over 1 GiB is refused, and --format is ignored.

--old-root and --new-root go together. With them the files may be of any size.
The length and the level of each chunk are read. Whole chunks are read only if
the other tree does not have them, and a few beside them. Each of these is
compared with the reference above it, from the root of its tree down. So what is
printed is right for these roots, whatever else the files hold. The command ends
at a chunk that does not fit.

The exit status is 0 if the maps are equal, and 1 if they are not.

FILE is replaced once the record file is whole. So after a fault it is as it
was. A FILE that has bytes and does not begin as a record file does is refused,
unless --force is given.",
    example: "Examples: the changes of a day as a record file, and the same by the roots
  prolly diff monday.prl tuesday.prl --out changes.rec
  prolly diff --old-root \"$MONDAY\" --new-root \"$TUESDAY\" monday.prl tuesday.prl",
};

/// `diff [--text] [--stat] [--old-root ROOT] [--new-root ROOT] [--format V] [--out FILE] [--atomic]
/// [--sync] [--force] OLD NEW`
pub(crate) fn diff_line<'a>(alloc: Global) -> Line<'a>
    ensures { IfOk result (HasCommandLine diff_line) }
{
    let text = arguments::text_flag(alloc, "Print the changes as text, not hexadecimal");
    let out = arguments::out_option(alloc, "Write the changes to FILE, a record file");
    let old = arguments::tree_word(alloc, "old", "OLD", "The chunk file of the map as it was");
    let new = arguments::tree_word(
        alloc,
        "new",
        "NEW",
        "The chunk file of the map as it is now",
    );
    let line = described(alloc, "diff", HELP).arg(text);
    let line = with_argument(line, arguments::stat_flag(alloc));
    let line = with_roots(alloc, line);
    let line = with_mode(alloc, with_argument(line, out), ALWAYS_ASIDE);
    with_argument(with_argument(line, old), new)
}

/// Adds the options that name the roots of two trees that are trusted, and the version of their
/// chunks.
fn with_roots<'a>(alloc: Global, line: Line<'a>) -> Line<'a>
    ensures { (app : App) → IfOk line.entry (HasCommandLine app)
        → IfOk result (HasCommandLine (with_roots app)) }
{
    let old = arguments::tree_root_option(
        alloc,
        "old-root",
        "Trust only ROOT as OLD's root. Needs --new-root",
    );
    let new = arguments::tree_root_option(
        alloc,
        "new-root",
        "Trust only ROOT as NEW's root. Needs --old-root",
    );
    let format = arguments::format_option(
        alloc,
        "The format of both trees (1 or 2); ignored without roots",
    );
    let line = with_argument(line, old);
    let line = with_argument(line, new);
    with_argument(line, format)
}

/// What `diff` asks, from what clap found.
pub(crate) fn diff(alloc: Global, given: &ArgMatches<'_>) -> Result<Command, ParseFault>
    requires { IsAccepted (codes "diff", rows_in given.now) }
    ensures { AnswersFitting (codes "diff", rows_in given.now) result }
{
    let stat = flag_of(given, "stat");
    let notation = notation_of(given);
    let mode = mode_of(given);
    let roots = roots_of(given)?;
    let version = byte_of(given, "format");
    let old = text_of(alloc, given, "old")?;
    let new = text_of(alloc, given, "new")?;
    let out = option_of(alloc, given, "out")?;
    Ok(Command::Diff {
        old,
        new,
        roots,
        version,
        out,
        stat,
        notation,
        mode,
    })
}
