//! Options with a value, each with the rule that clap reads it by.
ghost use Rattle.prolly_line.specs.Line.{batch_option, bits_option, capacity_option};
ghost use Rattle.prolly_line.specs.Line.{chunk_bytes_option, format_option, from_option};
ghost use Rattle.prolly_line.specs.Line.{keys_option, max_records_option, memory_option};
ghost use Rattle.prolly_line.specs.Line.{number_option, old_format_option, option_rule};
ghost use Rattle.prolly_line.specs.Line.{optional_number_option, out_option, required_root_option};
ghost use Rattle.prolly_line.specs.Line.{root_option, stages_option, to_option};
ghost use Rattle.prolly_line.specs.LocalArgs.{IsReadBy};

use clap::Arg;
use clap::builder::ValueParser;
use std::alloc::Global;

/// `--NAME VALUE_NAME`
fn text_option<'a>(alloc: Global, name: &'a str, value_name: &'a str) -> Arg<'a>
    ensures { IsReadBy (option_rule name.now) result }
{
    Arg::new(alloc, name).long(name).value_name(value_name)
}

/// Such an option, for a number from `least` to `most`.
fn number_option<'a>(
    alloc: Global,
    name: &'a str,
    value_name: &'a str,
    least: u32,
    most: u32,
    default: &'a str,
) -> Arg<'a>
    ensures { IsReadBy (number_option name.now least most default.now) result }
{
    text_option(alloc, name, value_name)
        .value_parser(ValueParser::signed(i64::from(least), i64::from(most)))
        .default_value(default)
}

/// Such an option without a default.
fn optional_number_option<'a>(
    alloc: Global,
    name: &'a str,
    value_name: &'a str,
    least: u32,
    most: u32,
) -> Arg<'a>
    ensures { IsReadBy (optional_number_option name.now least most) result }
{
    text_option(alloc, name, value_name).value_parser(ValueParser::signed(
        i64::from(least),
        i64::from(most),
    ))
}

/// `--bits Q`; `what` says for its help what it does.
pub(crate) fn bits_option<'a>(alloc: Global, what: &'a str) -> Arg<'a>
    ensures { IsReadBy bits_option result }
{
    optional_number_option(alloc, "bits", "Q", 0, 24).help(what)
}

/// `--chunk-bytes N`
pub(crate) fn chunk_bytes_option<'a>(alloc: Global) -> Arg<'a>
    ensures { IsReadBy chunk_bytes_option result }
{
    optional_number_option(alloc, "chunk-bytes", "N", 1, 1073741824).help(
        "Choose --bits so that a chunk has about N bytes (1 to 1,073,741,824)",
    )
}

/// `--memory MB`
pub(crate) fn memory_option<'a>(alloc: Global) -> Arg<'a>
    ensures { IsReadBy memory_option result }
{
    optional_number_option(alloc, "memory", "MB", 16, 4000).help(
        "Use about MB megabytes (16 to 4,000). Needs --sort [default: 256]",
    )
}

/// How many levels a tree that is made has at most, where `--stages` is not given.
pub const DEFAULT_STAGES: u8 = 12;

/// `--stages S`
pub(crate) fn stages_option<'a>(alloc: Global) -> Arg<'a>
    ensures { IsReadBy stages_option result }
{
    number_option(alloc, "stages", "S", 1, 12, "12").help(
        "Refuse a tree of more than S levels (1 to 12)",
    )
}

/// How many messages wait between two threads, where `--capacity` is not given.
pub const DEFAULT_CAPACITY: u32 = 64;

/// `--capacity C`
pub(crate) fn capacity_option<'a>(alloc: Global) -> Arg<'a>
    ensures { IsReadBy capacity_option result }
{
    number_option(alloc, "capacity", "C", 1, 4096, "64").help(
        "Let C messages wait between two threads (1 to 4,096)",
    )
}

/// How many records a record file has at most, where `--max-records` is not given.
pub const DEFAULT_MAX_RECORDS: u32 = 16_777_216;

/// `--max-records M`
pub(crate) fn max_records_option<'a>(alloc: Global) -> Arg<'a>
    ensures { IsReadBy max_records_option result }
{
    number_option(alloc, "max-records", "M", 1, 16777216, "16777216").help(
        "Refuse a record file of more than M records (1 to 16,777,216)",
    )
}

/// How many items a message has at most, where `--batch` is not given.
pub const DEFAULT_BATCH: u32 = 16;

/// `--batch B`
pub(crate) fn batch_option<'a>(alloc: Global) -> Arg<'a>
    ensures { IsReadBy batch_option result }
{
    number_option(alloc, "batch", "B", 1, 1024, "16").help(
        "Put up to B items into a message (1 to 1,024)",
    )
}

/// `--format V`; `what` says for its help what has this version.
pub(crate) fn format_option<'a>(alloc: Global, what: &'a str) -> Arg<'a>
    ensures { IsReadBy format_option result }
{
    number_option(alloc, "format", "V", 1, 2, "1").help(what)
}

/// `--format V`, of a tree that stands already.
pub(crate) fn old_format_option<'a>(alloc: Global) -> Arg<'a>
    ensures { IsReadBy old_format_option result }
{
    optional_number_option(alloc, "format", "V", 1, 2).help(
        "Refuse OLD unless its header says format V (1 or 2)",
    )
}

/// `--out FILE`, the file that a subcommand makes; `what` says for its help what that is.
pub(crate) fn out_option<'a>(alloc: Global, what: &'a str) -> Arg<'a>
    ensures { IsReadBy out_option result }
{
    text_option(alloc, "out", "FILE").help(what)
}

/// `--root ROOT`, the root that a look-up trusts.
pub(crate) fn root_option<'a>(alloc: Global) -> Arg<'a>
    ensures { IsReadBy root_option result }
{
    text_option(alloc, "root", "ROOT").help(
        "Trust only ROOT, the root of the tree, and not the file",
    )
}

/// `--root ROOT`, which has to be there.
pub(crate) fn required_root_option<'a>(alloc: Global) -> Arg<'a>
    ensures { IsReadBy required_root_option result }
{
    text_option(alloc, "root", "ROOT")
        .required(true)
        .help("The root of OLD's tree")
}

/// `--from KEY`, with which a proof is one of a range.
pub(crate) fn from_option<'a>(alloc: Global) -> Arg<'a>
    ensures { IsReadBy from_option result }
{
    text_option(alloc, "from", "KEY").help("Take a range of keys, from KEY on, in place of one key")
}

/// `--to KEY`, at which such a range ends.
pub(crate) fn to_option<'a>(alloc: Global) -> Arg<'a>
    ensures { IsReadBy to_option result }
{
    text_option(alloc, "to", "KEY").help("End the range before KEY. Needs --from")
}

/// `--keys KEYS`, with which many keys are asked for.
pub(crate) fn keys_option<'a>(alloc: Global) -> Arg<'a>
    ensures { IsReadBy keys_option result }
{
    text_option(alloc, "keys", "KEYS").help(
        "Take keys from the file KEYS, one a line, in rising order",
    )
}

/// The root of one of two trees that are trusted; `what` says for its help of which one.
pub(crate) fn tree_root_option<'a>(alloc: Global, name: &'a str, what: &'a str) -> Arg<'a>
    ensures { IsReadBy (option_rule name.now) result }
{
    text_option(alloc, name, "ROOT").help(what)
}
