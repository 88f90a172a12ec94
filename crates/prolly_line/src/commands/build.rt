//! `build`: its line, and what it asks.
ghost use Rattle.std.specs.Prelude.{IfOk, codes};
ghost use Rattle.prolly_line.specs.AcceptedWords.{Answers, AnswersFitting, DoesCutFit, IsAccepted};
ghost use Rattle.prolly_line.specs.AcceptedWords.{rows_in};
ghost use Rattle.prolly_line.specs.Line.{build_line};
ghost use Rattle.prolly_line.specs.LocalArgs.{HasCommandLine};

use crate::arguments;
use crate::assembly::{Line, called, described, with_argument};
use crate::command::Command;
use crate::commands::shared::{
    ASIDE, CUT, MADE_CHUNK_FILE, NO_PROGRESS, WRITTEN_FORMAT, with_mode,
};
use crate::help::Help;
use crate::misfit::Misfit;
use crate::parse_fault::ParseFault;
use crate::values::{
    bits_of, byte_of, chunk_bytes_of, flag_of, mode_of, number_of, text_of, texts_of,
};
use clap::ArgMatches;
use std::alloc::Global;

const HELP: Help<'static> = Help {
    about: "Make the chunk file of up to 16 record files",
    details: "Makes one chunk file, OUT, from up to 16 record files.

The files are read side by side, each by a thread of its own. A thread of its
own makes each level of the tree, too. If several files have a key, the last of
them wins: its pair replaces the value, its removal takes the key away.

Prints the text of the root and the numbers of chunks, pairs and levels.

OUT comes first: `prolly build *.rec` takes the first of these files for OUT. So
an OUT that has bytes and does not begin as a chunk file does is refused. If no
FILES are given, any OUT that has bytes is refused. With --force neither is
refused. An OUT that is among FILES is always refused.

OUT is opened after all files, and emptied once there is something to write.
After a fault before that, OUT is as it was. After a later fault it holds no
more than the first part of a chunk file, which `check` calls truncated. It is
whole only if nothing failed but to make or print the line. With --atomic it is
as it was, unless only standard output failed.

A chunk file of more than 1,073,741,824 bytes is read only by the commands that
take --root. About 28,200,000 records of 38 bytes make one.

--bits and --format decide what the chunk file holds. Choose --bits before the
first build, since another number gives another root. The default, 12, suits
trees that are loaded and scanned; 5 to 7 suit trees that are compared, sent or
proved. For a million pairs of 38 bytes, --bits give
  4   chunks of 0.6 kB; ten changes make 50 kB new; a proof has 4.8 kB
  6   chunks of 2.5 kB; ten changes make 101 kB new; a proof has 9.5 kB
  8   chunks of 9.7 kB; ten changes make 298 kB new; a proof has 35 kB
  12  chunks of 159 kB; ten changes make 3.2 MB new; a proof has 272 kB

--chunk-bytes takes the place of --bits. It chooses the bits by which a chunk
has about N bytes, from the mean size of the records in the first megabyte that
is read. A line on standard error says which bits it chose. Equal contents have
equal roots only at equal bits. So a script that compares roots gives --bits.

--stages and --max-records are limits: a tree of more levels, or a file of more
records, is refused. --capacity and --batch never change the chunk file. They
change only how much memory the threads use and how often they wait for one
another.

If standard error is a terminal, a build that takes longer than a second shows
its progress there. With --quiet it does not.",
    example: "Example: the records of a day over those of the day before
  prolly build tuesday.prl monday.rec tuesday.rec",
};

/// `build [--bits Q] [--chunk-bytes N] [--stages S] [--capacity C] [--max-records M] [--batch B]
/// [--format V] [--quiet] [--atomic] [--sync] [--force] OUT [FILES...]`
pub(crate) fn build_line<'a>(alloc: Global) -> Line<'a>
    ensures { IfOk result (HasCommandLine build_line) }
{
    let bits = arguments::bits_option(alloc, CUT);
    let line = described(alloc, "build", HELP).arg(bits);
    let line = with_argument(line, arguments::chunk_bytes_option(alloc));
    let line = with_argument(line, arguments::stages_option(alloc));
    let line = with_argument(line, arguments::capacity_option(alloc));
    let line = with_argument(line, arguments::max_records_option(alloc));
    let line = with_argument(line, arguments::batch_option(alloc));
    let line = with_argument(line, arguments::format_option(alloc, WRITTEN_FORMAT));
    let line = with_argument(line, arguments::quiet_flag(alloc, NO_PROGRESS));
    let line = with_mode(alloc, line, ASIDE);
    let line = with_argument(line, arguments::out_word(alloc, MADE_CHUNK_FILE));
    with_argument(line, arguments::files_words(alloc))
}

/// What `build` asks, from what clap found.
pub(crate) fn build(alloc: Global, given: &ArgMatches<'_>) -> Result<Command, ParseFault>
    requires { IsAccepted (codes "build", rows_in given.now) }
    ensures { Answers (codes "build", rows_in given.now) result }
{
    match Misfit::of_cut(given) {
        Some(misfit) => Err(misfit.fault(alloc, called(build_line(alloc), "prolly build"))),
        None => fitting_build(alloc, given),
    }
}

/// The same, where the words fit.
fn fitting_build(alloc: Global, given: &ArgMatches<'_>) -> Result<Command, ParseFault>
    requires accepted { IsAccepted (codes "build", rows_in given.now) }
    requires fit { DoesCutFit (rows_in given.now) }
    ensures { AnswersFitting (codes "build", rows_in given.now) result }
{
    let bits = bits_of(given);
    let chunk_bytes = chunk_bytes_of(given);
    let stages = byte_of(given, "stages");
    let capacity = number_of(given, "capacity");
    let max_records = number_of(given, "max-records");
    let batch = number_of(given, "batch");
    let version = byte_of(given, "format");
    let out = text_of(alloc, given, "out")?;
    let files = texts_of(alloc, given, "files")?;
    let quiet = flag_of(given, "quiet");
    let mode = mode_of(given);
    Ok(Command::Build {
        bits,
        chunk_bytes,
        stages,
        capacity,
        max_records,
        batch,
        version,
        out,
        files,
        quiet,
        mode,
    })
}
