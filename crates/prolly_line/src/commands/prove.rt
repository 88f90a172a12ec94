//! `prove`: its line, and what it asks.
ghost use Rattle.std.specs.Prelude.{IfOk, codes, true};
ghost use Rattle.prolly_line.specs.AcceptedWords.{Answers, AnswersFitting, DoFit, IsAccepted};
ghost use Rattle.prolly_line.specs.AcceptedWords.{rows_in};
ghost use Rattle.prolly_line.specs.Line.{prove_line};
ghost use Rattle.prolly_line.specs.LocalArgs.{HasCommandLine};

use crate::arguments;
use crate::assembly::{Line, described_as, with_argument};
use crate::command::Command;
use crate::commands::shared::{ALWAYS_ASIDE, CHUNK_FILE, with_mode, with_range, with_trust};
use crate::help::{Help, KEY_OR_SET};
use crate::misfit::Misfit;
use crate::parse_fault::ParseFault;
use crate::values::{mode_of, notation_of, place_of_last, sought_of, text_of, trust_of};
use clap::ArgMatches;
use std::alloc::Global;

const HELP: Help<'static> = Help {
    about: "Write a proof of a key, of a range, or of many keys",
    details: "Writes a proof of what FILE has at the key: its value, or that it has none. The
proof holds the chunks of FILE from the root down to the one at which the
look-up of the key ends. A client that knows only the root of FILE can check the
proof by `verify`, without FILE.

With --from, leave KEY out. The proof is then that of a range. It shows all
pairs from the key of --from on and before the key of --to, and that there are
no others. Without --to the range has no end. Keys are compared byte by byte.
The proof holds the chunks that have such keys, and those above them, each once.

With --keys, leave KEY out. The proof is then that of the keys of the file KEYS.
It shows what FILE has at each of them. KEYS is as `get` takes it: a key in each
line, greater than the one before it. The proof holds each chunk once, however
many keys meet it.

With --text keys are taken as text, with the escapes of `pack --text`.

Without --root the whole file is checked first, as by `check`. So a longer file
takes longer, a file over 1 GiB is refused, and --format is ignored.

With --root only what is needed is read: the length and the level of each chunk,
and the chunks of the proof. Each of these is compared with the reference above
it, from ROOT down. So what is written is a proof for ROOT, whatever else the
file holds. A chunk that does not fit is refused.

Nothing is printed. The exit status is 0 even if FILE does not have the key, or
has no pair in the range or at the keys. It is 3 if a line of KEYS is refused.

OUT is replaced once the proof is whole. So after a fault it is as it was. An
OUT that has bytes and does not begin as a proof does is refused, unless --force
is given.",
    example: "Examples: a proof of what days.prl has at the key of one byte, 61, and one of
all that it has from there on before the key 63
  prolly prove days.prl 61 61.proof
  prolly prove --from 61 --to 63 days.prl range.proof",
};

const USAGE: &str = "prolly prove [OPTIONS] <FILE> <KEY> <OUT>
       prolly prove [OPTIONS] --from <KEY> [--to <KEY>] <FILE> <OUT>
       prolly prove [OPTIONS] --keys <KEYS> <FILE> <OUT>";

/// `prove [--text] [--root ROOT] [--format V] [--from KEY] [--to KEY] [--keys KEYS] [--atomic]
/// [--sync] [--force] FILE [KEY] [OUT]`
///
/// Where `--from` or `--keys` is given, the word behind FILE is OUT, and there is no third one.
pub(crate) fn prove_line<'a>(alloc: Global) -> Line<'a>
    ensures { IfOk result (HasCommandLine prove_line) }
{
    let text = arguments::text_flag(alloc, "Take keys as text, not hexadecimal");
    let line = described_as(alloc, "prove", USAGE, HELP).arg(text);
    let line = with_range(alloc, with_trust(alloc, line));
    let line = with_mode(alloc, line, ALWAYS_ASIDE);
    let line = with_argument(line, arguments::file_word(alloc, CHUNK_FILE));
    let line = with_argument(line, arguments::optional_key_word(alloc, KEY_OR_SET));
    with_argument(
        line,
        arguments::optional_out_word(alloc, "The proof to make"),
    )
}

/// What `prove` asks, from what clap found.
pub(crate) fn prove(alloc: Global, given: &ArgMatches<'_>) -> Result<Command, ParseFault>
    requires { IsAccepted (codes "prove", rows_in given.now) }
    ensures { Answers (codes "prove", rows_in given.now) result }
{
    match Misfit::of(given, "out", true) {
        Some(misfit) => Err(misfit.fault(alloc, prove_line(alloc))),
        None => fitting_prove(alloc, given),
    }
}

/// The same, where the words fit.
fn fitting_prove(alloc: Global, given: &ArgMatches<'_>) -> Result<Command, ParseFault>
    requires accepted { IsAccepted (codes "prove", rows_in given.now) }
    requires fit { DoFit (codes "out") true (rows_in given.now) }
    ensures { AnswersFitting (codes "prove", rows_in given.now) result }
{
    let notation = notation_of(given);
    let (root, version) = trust_of(given)?;
    let sought = sought_of(alloc, given, notation)?;
    let file = text_of(alloc, given, "file")?;
    let out = text_of(alloc, given, place_of_last(&sought, "out"))?;
    let mode = mode_of(given);
    Ok(Command::Prove {
        file,
        sought,
        root,
        version,
        out,
        notation,
        mode,
    })
}
