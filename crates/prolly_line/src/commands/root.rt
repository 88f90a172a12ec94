//! `root`: its line, and what it asks.
ghost use Rattle.std.specs.Prelude.{IfOk, codes};
ghost use Rattle.prolly_line.specs.AcceptedWords.{AnswersFitting, IsAccepted, rows_in};
ghost use Rattle.prolly_line.specs.Line.{root_line};
ghost use Rattle.prolly_line.specs.LocalArgs.{HasCommandLine};

use crate::arguments;
use crate::assembly::{Line, described};
use crate::command::Command;
use crate::commands::shared::CHUNK_FILE;
use crate::help::Help;
use crate::parse_fault::ParseFault;
use crate::values::text_of;
use clap::ArgMatches;
use std::alloc::Global;

const HELP: Help<'static> = Help {
    about: "Print the root that a chunk file names",
    details: "Prints the text of the root that a chunk file names in its last 29 bytes.

Only these bytes and the first six are read and tested. So nobody vouches for
the root that is printed. To find a lost root, print it, and then let
`check --root` say whether FILE has it. FILE may be of any size.",
    example: "Example: check a chunk file of any size whose root was lost
  prolly check --root \"$(prolly root days.prl)\" days.prl",
};

/// `root FILE`
pub(crate) fn root_line<'a>(alloc: Global) -> Line<'a>
    ensures { IfOk result (HasCommandLine root_line) }
{
    described(alloc, "root", HELP).arg(arguments::file_word(alloc, CHUNK_FILE))
}

/// What `root` asks, from what clap found.
pub(crate) fn root(alloc: Global, given: &ArgMatches<'_>) -> Result<Command, ParseFault>
    requires { IsAccepted (codes "root", rows_in given.now) }
    ensures { AnswersFitting (codes "root", rows_in given.now) result }
{
    let file = text_of(alloc, given, "file")?;
    Ok(Command::Root { file })
}
