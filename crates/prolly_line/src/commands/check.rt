//! `check`: its line, and what it asks.
ghost use Rattle.std.specs.Prelude.{[], ◌∷◌, ◌≡◌, ◌≤◌, IfOk, Some, codes, false, length, unwrap_or};
ghost use Rattle.clap.specs.Words.{Text, all_of, first_of};
ghost use Rattle.prolly_line.specs.AcceptedWords.{AnswersFitting, IsAccepted, rows_in};
ghost use Rattle.prolly_line.specs.GivenCommand.{GivesFlag};
ghost use Rattle.prolly_line.specs.Line.{check_line};
ghost use Rattle.prolly_line.specs.LocalArgs.{HasCommandLine};

use crate::arguments;
use crate::assembly::{Line, described, with_argument};
use crate::command::Command;
use crate::commands::shared::with_trust;
use crate::help::Help;
use crate::parse_fault::ParseFault;
use crate::values::{flag_of, has_several, text_of, texts_of, trust_of};
use clap::ArgMatches;
use std::alloc::Global;

const HELP: Help<'static> = Help {
    about: "Check whether chunk files are lawful",
    details: "Reads a chunk file from end to end and says whether it is lawful: whether it is
the one chunk file of its contents, to the byte.

If it is, this prints `ok`, the text of the root, the number of --bits and the
number of chunks.

Several files are checked one after another. Each line of output then ends with
two spaces and the file's name, and the line of a refusal names its file. The
exit status is that of the first refusal. With --quiet nothing is printed of
files that are lawful.

Without --root the file may have any root. It is held in memory, and a file over
1 GiB is refused. So is a file two of whose chunks have the same reference.
--format is ignored.

With --root a file with another root is refused. FILE may be of any size, and
may be a pipe. 16 MiB of it are held in memory, or more if a chunk is larger.
The fault that is told is the first one in the order of the bytes.",
    example: "Examples: a file, one of any size whose root is known, and several
  prolly check days.prl
  prolly check --root nu05v9k058pmjdu7s5312ho13geggue6 days.prl
  prolly check monday.prl tuesday.prl",
};

/// `check [--root ROOT] [--format V] [--quiet] FILE...`
pub(crate) fn check_line<'a>(alloc: Global) -> Line<'a>
    ensures { IfOk result (HasCommandLine check_line) }
{
    let quiet = arguments::quiet_flag(alloc, "Print nothing of a file that is lawful");
    let line = described(alloc, "check", HELP).arg(arguments::file_words(alloc));
    with_argument(with_trust(alloc, line), quiet)
}

/// What `check` asks, from what clap found.
pub(crate) fn check(alloc: Global, given: &ArgMatches<'_>) -> Result<Command, ParseFault>
    requires { IsAccepted (codes "check", rows_in given.now) }
    ensures { AnswersFitting (codes "check", rows_in given.now) result }
{
    match (flag_of(given, "quiet"), has_several(given, "file")) {
        (false, false) => check_one(alloc, given),
        _ => check_files(alloc, given),
    }
}

/// The same of one file.
fn check_one(alloc: Global, given: &ArgMatches<'_>) -> Result<Command, ParseFault>
    requires accepted { IsAccepted (codes "check", rows_in given.now) }
    requires loud { GivesFlag (rows_in given.now) (codes "quiet") false }
    requires one { (word : Text) → first_of (codes "file") (rows_in given.now) ≡ Some word
        → unwrap_or (all_of (codes "file") (rows_in given.now)) [] ≡ word ∷ [] }
    ensures { AnswersFitting (codes "check", rows_in given.now) result }
{
    let (root, version) = trust_of(given)?;
    let file = text_of(alloc, given, "file")?;
    Ok(Command::Check {
        file,
        root,
        version,
    })
}

/// The same of several files, or of which no more is told than what is at fault.
fn check_files(alloc: Global, given: &ArgMatches<'_>) -> Result<Command, ParseFault>
    requires accepted { IsAccepted (codes "check", rows_in given.now) }
    requires several { GivesFlag (rows_in given.now) (codes "quiet") false
        → 2 ≤ length (unwrap_or (all_of (codes "file") (rows_in given.now)) []) }
    ensures { AnswersFitting (codes "check", rows_in given.now) result }
{
    let (root, version) = trust_of(given)?;
    let files = texts_of(alloc, given, "file")?;
    let quiet = flag_of(given, "quiet");
    Ok(Command::CheckFiles {
        files,
        root,
        version,
        quiet,
    })
}
