//! `nth`: its line, and what it asks.
ghost use Rattle.std.specs.Prelude.{IfOk, codes};
ghost use Rattle.prolly_line.specs.AcceptedWords.{AnswersFitting, IsAccepted, rows_in};
ghost use Rattle.prolly_line.specs.Line.{nth_line};
ghost use Rattle.prolly_line.specs.LocalArgs.{HasCommandLine};

use crate::arguments;
use crate::assembly::Line;
use crate::command::Command;
use crate::commands::look_up::look_up_line;
use crate::help::Help;
use crate::parse_fault::ParseFault;
use crate::values::{notation_of, number_of, text_of, trust_of};
use clap::ArgMatches;
use std::alloc::Global;

const HELP: Help<'static> = Help {
    about: "Print the pair at a place in a chunk file",
    details: "Prints the pair at place N of a chunk file, in the order of the keys. The first
pair is at place 0. The file has to be of --format 2, whose nodes count their
pairs.

The pair is a line, HEXKEY HEXVALUE. If there is none, nothing is printed, and
the exit status is 1. With --text the pair is printed as text: a key, a tab and
a value, with the escapes of `pack --text`.

Without --root the whole file is checked first, as by `check`. So a longer file
takes longer, a file over 1 GiB is refused, and --format is ignored.

With --root, --format 2 has to be given. Only what is needed is read then: the
length and the level of each chunk, and the chunks on the way to the pair, one a
level. Each of these is compared with the reference above it, from ROOT down. So
what is printed is right for ROOT, whatever else the file holds. A chunk that
does not fit is refused.",
    example: "Example: the first pair of a file that was built with --format 2
  prolly build --format 2 counted.prl monday.rec tuesday.rec
  prolly nth counted.prl 0",
};

/// `nth [--text] [--root ROOT] [--format V] FILE N`
pub(crate) fn nth_line<'a>(alloc: Global) -> Line<'a>
    ensures { IfOk result (HasCommandLine nth_line) }
{
    let text = "Print the pair as text, not hexadecimal";
    look_up_line(alloc, "nth", HELP, text, arguments::n_word(alloc))
}

/// What `nth` asks, from what clap found.
pub(crate) fn nth(alloc: Global, given: &ArgMatches<'_>) -> Result<Command, ParseFault>
    requires { IsAccepted (codes "nth", rows_in given.now) }
    ensures { AnswersFitting (codes "nth", rows_in given.now) result }
{
    let (root, version) = trust_of(given)?;
    let n = u64::from(number_of(given, "n"));
    let file = text_of(alloc, given, "file")?;
    let notation = notation_of(given);
    Ok(Command::Nth {
        file,
        n,
        root,
        version,
        notation,
    })
}
