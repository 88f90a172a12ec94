//! `scan`: its line, and what it asks.
ghost use Rattle.std.specs.Prelude.{IfOk, codes};
ghost use Rattle.prolly_line.specs.AcceptedWords.{AnswersFitting, IsAccepted, rows_in};
ghost use Rattle.prolly_line.specs.Line.{scan_line};
ghost use Rattle.prolly_line.specs.LocalArgs.{HasCommandLine};

use crate::arguments;
use crate::assembly::{Line, with_argument};
use crate::command::Command;
use crate::commands::look_up::{look_up_line, trusted_key};
use crate::help::Help;
use crate::parse_fault::ParseFault;
use crate::values::{notation_of, number_of, text_of};
use clap::ArgMatches;
use std::alloc::Global;

const HELP: Help<'static> = Help {
    about: "Print the pairs of a chunk file from a key on",
    details: "Prints pairs of a chunk file in the order of their keys: the first LIMIT pairs
whose key is not less than KEY. Keys are compared byte by byte, and a key comes
before the longer ones that begin with it.

Each pair is a line, HEXKEY HEXVALUE. With --text KEY is taken as text, and each
pair is printed as text: a key, a tab and a value, with the escapes of
`pack --text`.

Without --root the whole file is checked first, as by `check`. So a longer file
takes longer, a file over 1 GiB is refused, and --format is ignored.

With --root only what is needed is read: the length and the level of each chunk,
and the chunks on the way to these pairs. Each of these chunks is compared with
the reference above it, from ROOT down. So what is printed is right for ROOT,
whatever else the file holds. The command ends at a chunk that does not fit.",
    example: "Example: the first ten pairs from the key 61 on
  prolly scan days.prl 61 10",
};

/// `scan [--text] [--root ROOT] [--format V] FILE KEY LIMIT`
pub(crate) fn scan_line<'a>(alloc: Global) -> Line<'a>
    ensures { IfOk result (HasCommandLine scan_line) }
{
    let text = "Take the key and print the pairs as text, not hexadecimal";
    let key = arguments::key_word(alloc);
    let line = look_up_line(alloc, "scan", HELP, text, key);
    with_argument(line, arguments::limit_word(alloc))
}

/// What `scan` asks, from what clap found.
pub(crate) fn scan(alloc: Global, given: &ArgMatches<'_>) -> Result<Command, ParseFault>
    requires { IsAccepted (codes "scan", rows_in given.now) }
    ensures { AnswersFitting (codes "scan", rows_in given.now) result }
{
    let notation = notation_of(given);
    let (root, version, from) = trusted_key(alloc, given, notation)?;
    let limit = number_of(given, "limit");
    let file = text_of(alloc, given, "file")?;
    Ok(Command::Scan {
        file,
        from,
        limit,
        root,
        version,
        notation,
    })
}
