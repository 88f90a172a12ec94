//! `scratch`: its line, and what it asks.
ghost use Rattle.std.specs.Prelude.{IfOk, codes};
ghost use Rattle.prolly_line.specs.AcceptedWords.{Answers, AnswersFitting, DoesCutFit, IsAccepted};
ghost use Rattle.prolly_line.specs.AcceptedWords.{rows_in};
ghost use Rattle.prolly_line.specs.Line.{scratch_line};
ghost use Rattle.prolly_line.specs.LocalArgs.{HasCommandLine};

use crate::arguments;
use crate::assembly::{Line, called, described, with_argument};
use crate::command::Command;
use crate::commands::shared::{ASIDE, CUT, WRITTEN_FORMAT, with_mode};
use crate::help::Help;
use crate::misfit::Misfit;
use crate::parse_fault::ParseFault;
use crate::values::{bits_of, byte_of, chunk_bytes_of, mode_of, option_of};
use clap::ArgMatches;
use std::alloc::Global;

const HELP: Help<'static> = Help {
    about: "Make the tree of one record file from standard input",
    details: "Reads one record file from standard input, makes its tree, and prints the text
of the root.

Equal contents give equal roots and equal chunk files, whether this command made
them or `build` did, at equal --bits and --format.

--chunk-bytes takes the place of --bits. It chooses the bits by which a chunk
has about N bytes, from the mean size of the records in the first megabyte that
is read. A line on standard error says which bits it chose. Equal contents have
equal roots only at equal bits. So a script that compares roots gives --bits.

Without --out no file is made, and --atomic, --sync and --force are ignored.
With --out, FILE is opened before the input is read, and emptied once there is
something to write. After a fault before that, FILE is as it was. If writing
fails, FILE holds the first part of the chunk file, or with --atomic what it
held. If only standard output fails, FILE is whole. A FILE that has bytes and
does not begin as a chunk file does is refused, unless --force is given.",
    example: "Example:
  prolly scratch --out ab.prl < ab.rec",
};

/// `scratch [--bits Q] [--chunk-bytes N] [--format V] [--out FILE] [--atomic] [--sync] [--force]`
pub(crate) fn scratch_line<'a>(alloc: Global) -> Line<'a>
    ensures { IfOk result (HasCommandLine scratch_line) }
{
    let bits = arguments::bits_option(alloc, CUT);
    let line = described(alloc, "scratch", HELP).arg(bits);
    let line = with_argument(line, arguments::chunk_bytes_option(alloc));
    let line = with_argument(line, arguments::format_option(alloc, WRITTEN_FORMAT));
    let out = arguments::out_option(alloc, "Write the tree to FILE, a chunk file");
    let line = with_argument(line, out);
    with_mode(alloc, line, ASIDE)
}

/// What `scratch` asks, from what clap found.
pub(crate) fn scratch(alloc: Global, given: &ArgMatches<'_>) -> Result<Command, ParseFault>
    requires { IsAccepted (codes "scratch", rows_in given.now) }
    ensures { Answers (codes "scratch", rows_in given.now) result }
{
    match Misfit::of_cut(given) {
        Some(misfit) => Err(misfit.fault(alloc, called(scratch_line(alloc), "prolly scratch"))),
        None => fitting_scratch(alloc, given),
    }
}

/// The same, where the words fit.
fn fitting_scratch(alloc: Global, given: &ArgMatches<'_>) -> Result<Command, ParseFault>
    requires accepted { IsAccepted (codes "scratch", rows_in given.now) }
    requires fit { DoesCutFit (rows_in given.now) }
    ensures { AnswersFitting (codes "scratch", rows_in given.now) result }
{
    let bits = bits_of(given);
    let chunk_bytes = chunk_bytes_of(given);
    let version = byte_of(given, "format");
    let out = option_of(alloc, given, "out")?;
    let mode = mode_of(given);
    Ok(Command::Scratch {
        bits,
        chunk_bytes,
        version,
        out,
        mode,
    })
}
