//! Words, each with the rule that clap reads it by.
ghost use Rattle.prolly_line.specs.Line.{changes_words, file_word, file_words, files_words};
ghost use Rattle.prolly_line.specs.Line.{key_word, limit_word, n_word, number_word};
ghost use Rattle.prolly_line.specs.Line.{optional_file_word, optional_key_word, optional_out_word};
ghost use Rattle.prolly_line.specs.Line.{out_word, proof_word, root_word, word_rule, words_rule};
ghost use Rattle.prolly_line.specs.LocalArgs.{IsReadBy};

use crate::help;
use clap::Arg;
use clap::builder::ValueParser;
use std::alloc::Global;

/// A word that has to be there.
fn required_word<'a>(alloc: Global, name: &'a str, value_name: &'a str) -> Arg<'a>
    ensures { IsReadBy (word_rule name.now) result }
{
    Arg::new(alloc, name).required(true).value_name(value_name)
}

/// Such a word, for a number from `least` to `most`.
fn number_word<'a>(
    alloc: Global,
    name: &'a str,
    value_name: &'a str,
    least: u32,
    most: u32,
) -> Arg<'a>
    ensures { IsReadBy (number_word name.now least most) result }
{
    required_word(alloc, name, value_name).value_parser(ValueParser::signed(
        i64::from(least),
        i64::from(most),
    ))
}

/// `OUT`, the file that a subcommand makes; `what` says for its help what that is.
pub(crate) fn out_word<'a>(alloc: Global, what: &'a str) -> Arg<'a>
    ensures { IsReadBy out_word result }
{
    required_word(alloc, "out", "OUT").help(what)
}

/// `[OUT]`, the file that a subcommand makes, where there is another place for it or none is made;
/// `what` says for its help which.
pub(crate) fn optional_out_word<'a>(alloc: Global, what: &'a str) -> Arg<'a>
    ensures { IsReadBy optional_out_word result }
{
    Arg::new(alloc, "out").value_name("OUT").help(what)
}

/// A chunk file that a subcommand reads; `what` says for its help which one it is.
pub(crate) fn tree_word<'a>(
    alloc: Global,
    name: &'a str,
    value_name: &'a str,
    what: &'a str,
) -> Arg<'a>
    ensures { IsReadBy (word_rule name.now) result }
{
    required_word(alloc, name, value_name).help(what)
}

/// `FILE`, the file that a subcommand reads; `what` says for its help what that is.
pub(crate) fn file_word<'a>(alloc: Global, what: &'a str) -> Arg<'a>
    ensures { IsReadBy file_word result }
{
    required_word(alloc, "file", "FILE").help(what)
}

/// `[FILE]`, which is left out where lines are read in its place.
pub(crate) fn optional_file_word<'a>(alloc: Global) -> Arg<'a>
    ensures { IsReadBy optional_file_word result }
{
    Arg::new(alloc, "file")
        .value_name("FILE")
        .help("The record file; left out with --lines")
}

/// `FILE...`
pub(crate) fn file_words<'a>(alloc: Global) -> Arg<'a>
    ensures { IsReadBy file_words result }
{
    required_word(alloc, "file", "FILE")
        .num_args(1..)
        .help("One chunk file, or several")
}

/// `[PROOF]`, the proof that a subcommand reads.
pub(crate) fn proof_word<'a>(alloc: Global) -> Arg<'a>
    ensures { IsReadBy proof_word result }
{
    Arg::new(alloc, "proof")
        .value_name("PROOF")
        .help("The proof; by default standard input")
}

/// `ROOT`
pub(crate) fn root_word<'a>(alloc: Global) -> Arg<'a>
    ensures { IsReadBy root_word result }
{
    required_word(alloc, "root", "ROOT").help(
        "The root of the tree: a text of 32 characters, 0 to 9 and a to v",
    )
}

/// `KEY`
pub(crate) fn key_word<'a>(alloc: Global) -> Arg<'a>
    ensures { IsReadBy key_word result }
{
    required_word(alloc, "key", "KEY").help(help::KEY)
}

/// `[KEY]`, where something else may stand in its place; `what` says for its help what it is, and
/// beside which options it is left out.
pub(crate) fn optional_key_word<'a>(alloc: Global, what: &'a str) -> Arg<'a>
    ensures { IsReadBy optional_key_word result }
{
    Arg::new(alloc, "key").value_name("KEY").help(what)
}

/// `LIMIT`
pub(crate) fn limit_word<'a>(alloc: Global) -> Arg<'a>
    ensures { IsReadBy limit_word result }
{
    number_word(alloc, "limit", "LIMIT", 0, 1000000).help(
        "Print at most LIMIT pairs (0 to 1,000,000)",
    )
}

/// `N`
pub(crate) fn n_word<'a>(alloc: Global) -> Arg<'a>
    ensures { IsReadBy n_word result }
{
    number_word(alloc, "n", "N", 0, u32::MAX).help(
        "The place of the pair in the order of the keys (0 to 4,294,967,295)",
    )
}

/// Any number of words.
fn any_words<'a>(alloc: Global, name: &'a str, value_name: &'a str) -> Arg<'a>
    ensures { IsReadBy (words_rule name.now) result }
{
    Arg::new(alloc, name).num_args(0..).value_name(value_name)
}

/// `FILES`
pub(crate) fn files_words<'a>(alloc: Global) -> Arg<'a>
    ensures { IsReadBy files_words result }
{
    any_words(alloc, "files", "FILES").help(
        "The record files, at most 16; the last one that has a key wins",
    )
}

/// `CHANGES`
pub(crate) fn changes_words<'a>(alloc: Global) -> Arg<'a>
    ensures { IsReadBy changes_words result }
{
    any_words(alloc, "changes", "CHANGES").help(
        "The record files of changes, at most 15; the last one that has a key wins",
    )
}
