//! `get`: its line, and what it asks.
ghost use Rattle.std.specs.Prelude.{IfOk, codes};
ghost use Rattle.prolly_line.specs.AcceptedWords.{Answers, AnswersFitting, DoesKeyFit, HasWord};
ghost use Rattle.prolly_line.specs.AcceptedWords.{IsAccepted, rows_in};
ghost use Rattle.prolly_line.specs.GivenCommand.{HasNone};
ghost use Rattle.prolly_line.specs.Line.{get_line};
ghost use Rattle.prolly_line.specs.LocalArgs.{HasCommandLine};

use crate::arguments;
use crate::assembly::{Line, described_as, with_argument};
use crate::command::Command;
use crate::commands::look_up::trusted_key;
use crate::commands::shared::{CHUNK_FILE, with_trust};
use crate::help::{Help, KEY_OR_KEYS};
use crate::misfit::Misfit;
use crate::parse_fault::ParseFault;
use crate::values::{flag_of, is_given, notation_of, text_of, trust_of};
use clap::ArgMatches;
use std::alloc::Global;

const HELP: Help<'static> = Help {
    about: "Print the value of a key in a chunk file, or of many keys",
    details: "Prints the value of one key in a chunk file, in hexadecimal. If the file does
not have the key, nothing is printed, and the exit status is 1.

With --keys, leave KEY out. The keys are then those of the file KEYS: one in
each line, each greater than the one before it. A line is printed for each key,
in their order: HEXKEY HEXVALUE, or HEXKEY alone if there is no value. The exit
status is 0 even if no key has a value. If a line is no key, or its key is not
greater, the fault names the number of the line, counted from 0. Nothing else is
printed then, and the exit status is 3.

With --text keys are taken and values printed as text, with the escapes of
`pack --text`. A tab stands between a key and its value.

With --raw the bytes of the value are printed and nothing else, not even a
newline. --text then says only how KEY is written. --raw and --keys do not go
together.

Without --root the whole file is checked first, as by `check`. So a longer file
takes longer, a file over 1 GiB is refused, and --format is ignored.

With --root only what is needed is read: the length and the level of each chunk,
and the chunks on the way to a key, one a level. Each of these is compared with
the reference above it, from ROOT down. So what is printed is right for ROOT,
whatever else the file holds. A chunk that does not fit is refused.",
    example: "Examples: the value of the key of one byte, 61, the same as it is, and what
there is at each key of a file
  prolly get days.prl 61
  prolly get --raw days.prl 61 > value
  prolly get --keys keys.txt days.prl",
};

const USAGE: &str = "prolly get [OPTIONS] <FILE> <KEY>
       prolly get [OPTIONS] --keys <KEYS> <FILE>";

/// What `--text` says where keys are taken and their values are printed.
const KEYS_AND_VALUES: &str = "Take keys and print values as text, not hexadecimal";

/// `get [--text] [--raw] [--root ROOT] [--format V] [--keys KEYS] FILE [KEY]`
pub(crate) fn get_line<'a>(alloc: Global) -> Line<'a>
    ensures { IfOk result (HasCommandLine get_line) }
{
    let text = arguments::text_flag(alloc, KEYS_AND_VALUES);
    let line = described_as(alloc, "get", USAGE, HELP).arg(text);
    let line = with_trust(alloc, with_argument(line, arguments::raw_flag(alloc)));
    let line = with_argument(line, arguments::keys_option(alloc));
    let line = with_argument(line, arguments::file_word(alloc, CHUNK_FILE));
    with_argument(line, arguments::optional_key_word(alloc, KEY_OR_KEYS))
}

/// What `get` asks, from what clap found.
pub(crate) fn get(alloc: Global, given: &ArgMatches<'_>) -> Result<Command, ParseFault>
    requires { IsAccepted (codes "get", rows_in given.now) }
    ensures { Answers (codes "get", rows_in given.now) result }
{
    match Misfit::of_key(given) {
        Some(misfit) => Err(misfit.fault(alloc, get_line(alloc))),
        None if is_given(given, "keys") => get_keys(alloc, given),
        None => get_one(alloc, given),
    }
}

/// The same of many keys, where the words fit.
fn get_keys(alloc: Global, given: &ArgMatches<'_>) -> Result<Command, ParseFault>
    requires accepted { IsAccepted (codes "get", rows_in given.now) }
    requires fit { DoesKeyFit (rows_in given.now) }
    requires keys { HasWord (codes "keys") (rows_in given.now) }
    ensures { AnswersFitting (codes "get", rows_in given.now) result }
{
    let notation = notation_of(given);
    let (root, version) = trust_of(given)?;
    let file = text_of(alloc, given, "file")?;
    let keys = text_of(alloc, given, "keys")?;
    Ok(Command::GetKeys {
        file,
        keys,
        root,
        version,
        notation,
    })
}

/// The same of one key.
fn get_one(alloc: Global, given: &ArgMatches<'_>) -> Result<Command, ParseFault>
    requires accepted { IsAccepted (codes "get", rows_in given.now) }
    requires fit { DoesKeyFit (rows_in given.now) }
    requires none { HasNone (codes "keys") (rows_in given.now) }
    ensures { AnswersFitting (codes "get", rows_in given.now) result }
{
    let notation = notation_of(given);
    let (root, version, key) = trusted_key(alloc, given, notation)?;
    let file = text_of(alloc, given, "file")?;
    let raw = flag_of(given, "raw");
    Ok(Command::Get {
        file,
        key,
        root,
        version,
        notation,
        raw,
    })
}
