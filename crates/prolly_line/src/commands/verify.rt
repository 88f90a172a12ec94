//! `verify`: its line, and what it asks.
ghost use Rattle.std.specs.Prelude.{IfOk, codes, false};
ghost use Rattle.prolly_line.specs.AcceptedWords.{Answers, AnswersFitting, DoFit, IsAccepted};
ghost use Rattle.prolly_line.specs.AcceptedWords.{rows_in};
ghost use Rattle.prolly_line.specs.Line.{verify_line};
ghost use Rattle.prolly_line.specs.LocalArgs.{HasCommandLine};

use crate::arguments;
use crate::assembly::{Line, described_as, with_argument};
use crate::command::Command;
use crate::commands::shared::with_range;
use crate::help::{Help, KEY_OR_SET};
use crate::misfit::Misfit;
use crate::parse_fault::ParseFault;
use crate::values::{byte_of, notation_of, option_of, place_of_last, root_of, sought_of};
use clap::ArgMatches;
use std::alloc::Global;

const HELP: Help<'static> = Help {
    about: "Print what a proof shows to a client that knows only the root",
    details: "Prints what a proof shows to a client that knows only ROOT, the root of a tree,
as `scratch`, `build` and `check` print it. `prove` has made the proof. It may
come from anywhere: if it is taken, the tree of ROOT has at the key what is
printed, or two different chunks have the same SHA-512 prefix, which nobody has
seen yet.

With --from, leave KEY out. The proof is then that of a range: of all pairs from
the key of --from on and before the key of --to. Without --to the range has no
end. Each pair is a line, HEXKEY HEXVALUE. The pairs of a chunk are printed once
the chunk was compared with the reference above it. So what is printed is right
for ROOT. Only the exit status 0 says that it is all.

With --keys, leave KEY out. The proof is then that of the keys of the file KEYS,
the one that `prove` was given. A line is printed for each key, as `get` prints
it: HEXKEY HEXVALUE, or HEXKEY alone if there is no value. The line of a key
with a value is printed once its chunk was compared. The line of a key without
one is printed with that of the next key that has one, or at the end. So what is
printed is right for ROOT. Only the exit status 0 says that it is all.

The proof is read from PROOF, or from standard input if PROOF is not given. A
proof of a range, or of many keys, may be of any size.

With --text keys are taken as text, and what the proof shows is printed as text,
with the escapes of `pack --text`.

The exit status is
  0  if the key has a value, which is printed in hexadecimal; if all pairs of
     the range were printed, even if there are none; or if a line was printed
     for each key of KEYS
  1  if the key has no value; nothing is printed
  2  if a word is not understood, for example if ROOT is not the text of a root
  3  if a line of KEYS is refused
  4  if the proof is refused; a line names its first fault
  5  if the proof or KEYS cannot be read or is too long, or if the answer cannot
     be printed
  6  if memory was refused, or if a chunk of the proof has more than 1 GiB",
    example: "Examples: what the tree of a root has at the key of one byte, 61, and all that
it has from there on before the key 63
  prolly verify \
    nu05v9k058pmjdu7s5312ho13geggue6 61 61.proof
  prolly verify --from 61 --to 63 \
    nu05v9k058pmjdu7s5312ho13geggue6 range.proof",
};

const USAGE: &str = "prolly verify [OPTIONS] <ROOT> <KEY> [PROOF]
       prolly verify [OPTIONS] --from <KEY> [--to <KEY>] <ROOT> [PROOF]
       prolly verify [OPTIONS] --keys <KEYS> <ROOT> [PROOF]";

/// `verify [--text] [--format V] [--from KEY] [--to KEY] [--keys KEYS] ROOT [KEY] [PROOF]`
///
/// Where `--from` or `--keys` is given, the word behind ROOT is PROOF, and there is no third one.
pub(crate) fn verify_line<'a>(alloc: Global) -> Line<'a>
    ensures { IfOk result (HasCommandLine verify_line) }
{
    let format = arguments::format_option(
        alloc,
        "The format of the tree (1 or 2), whatever the proof says",
    );
    let text = arguments::text_flag(
        alloc,
        "Take keys and print what is shown as text, not hexadecimal",
    );
    let line = described_as(alloc, "verify", USAGE, HELP).arg(text);
    let line = with_argument(line, format);
    let line = with_range(alloc, line);
    let line = with_argument(line, arguments::root_word(alloc));
    let line = with_argument(line, arguments::optional_key_word(alloc, KEY_OR_SET));
    with_argument(line, arguments::proof_word(alloc))
}

/// What `verify` asks, from what clap found.
pub(crate) fn verify(alloc: Global, given: &ArgMatches<'_>) -> Result<Command, ParseFault>
    requires { IsAccepted (codes "verify", rows_in given.now) }
    ensures { Answers (codes "verify", rows_in given.now) result }
{
    match Misfit::of(given, "proof", false) {
        Some(misfit) => Err(misfit.fault(alloc, verify_line(alloc))),
        None => fitting_verify(alloc, given),
    }
}

/// The same, where the words fit.
fn fitting_verify(alloc: Global, given: &ArgMatches<'_>) -> Result<Command, ParseFault>
    requires accepted { IsAccepted (codes "verify", rows_in given.now) }
    requires fit { DoFit (codes "proof") false (rows_in given.now) }
    ensures { AnswersFitting (codes "verify", rows_in given.now) result }
{
    let notation = notation_of(given);
    let root = root_of(given, "root")?;
    let sought = sought_of(alloc, given, notation)?;
    let version = byte_of(given, "format");
    let proof = option_of(alloc, given, place_of_last(&sought, "proof"))?;
    Ok(Command::Verify {
        root,
        sought,
        version,
        proof,
        notation,
    })
}
