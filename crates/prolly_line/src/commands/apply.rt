//! `apply`: its line, and what it asks.
ghost use Rattle.std.specs.Prelude.{IfOk, codes};
ghost use Rattle.prolly_line.specs.AcceptedWords.{AnswersFitting, IsAccepted, rows_in};
ghost use Rattle.prolly_line.specs.Line.{apply_line};
ghost use Rattle.prolly_line.specs.LocalArgs.{HasCommandLine};

use crate::arguments;
use crate::assembly::{Line, described, with_argument};
use crate::command::Command;
use crate::commands::shared::{ASIDE, MADE_CHUNK_FILE, NO_PROGRESS, with_mode};
use crate::help::Help;
use crate::parse_fault::ParseFault;
use crate::values::{flag_of, mode_of, optional_byte_of, root_of, text_of, texts_of};
use clap::ArgMatches;
use std::alloc::Global;

const HELP: Help<'static> = Help {
    about: "Make the next chunk file from the last one and its changes",
    details: "Makes OUT, the chunk file of the tree of ROOT with changes laid over it. The
changes are those of up to 15 record files. OUT is the file that `build` makes
of the old pairs and CHANGES. If several files have a key, the last of them
wins: its pair replaces the value, its removal takes the key away.

OLD has the tree of ROOT. It may be of any size and is not checked first. Only
what ROOT vouches for is believed: each chunk is compared with its reference
before it counts. What no change touches goes over as it is. So a few changes
take less than half the processor time of a `build`.

Prints the text of the new root and the numbers of chunks, pairs and levels.

The new tree has the --bits and the --format that the header of OLD says. If you
give others, OLD is refused. To make a tree of other bits, use `dump` and
`build`. A root does not tell its bits, so a header may lie about them. The
leaves nearly always show that, and then OLD is refused.

OUT is written as by `build`. It is emptied once there is something to write,
and after a later fault it holds no more than the first part of a chunk file.
With --atomic it is then as it was.",
    example: "Example: the tree of the day before, and the records of a day
  prolly apply --root nu05v9k058pmjdu7s5312ho13geggue6 old.prl new.prl day.rec",
};

/// `apply [--bits Q] [--format V] --root ROOT [--quiet] [--atomic] [--sync] [--force] OLD OUT
/// [CHANGES...]`
pub(crate) fn apply_line<'a>(alloc: Global) -> Line<'a>
    ensures { IfOk result (HasCommandLine apply_line) }
{
    let old = arguments::tree_word(alloc, "old", "OLD", "The chunk file of ROOT's tree");
    let bits = arguments::bits_option(alloc, "Refuse OLD unless its header says Q (0 to 24)");
    let line = described(alloc, "apply", HELP).arg(bits);
    let line = with_argument(line, arguments::old_format_option(alloc));
    let line = with_argument(line, arguments::required_root_option(alloc));
    let line = with_argument(line, arguments::quiet_flag(alloc, NO_PROGRESS));
    let line = with_argument(with_mode(alloc, line, ASIDE), old);
    let line = with_argument(line, arguments::out_word(alloc, MADE_CHUNK_FILE));
    with_argument(line, arguments::changes_words(alloc))
}

/// What `apply` asks, from what clap found.
pub(crate) fn apply(alloc: Global, given: &ArgMatches<'_>) -> Result<Command, ParseFault>
    requires { IsAccepted (codes "apply", rows_in given.now) }
    ensures { AnswersFitting (codes "apply", rows_in given.now) result }
{
    let root = root_of(given, "root")?;
    let bits = optional_byte_of(given, "bits");
    let version = optional_byte_of(given, "format");
    let old = text_of(alloc, given, "old")?;
    let out = text_of(alloc, given, "out")?;
    let changes = texts_of(alloc, given, "changes")?;
    let quiet = flag_of(given, "quiet");
    let mode = mode_of(given);
    Ok(Command::Apply {
        root,
        bits,
        version,
        old,
        out,
        changes,
        quiet,
        mode,
    })
}
