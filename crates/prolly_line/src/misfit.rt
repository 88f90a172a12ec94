//! Words that clap takes, and that do not fit together.
ghost use Rattle.std.specs.Prelude.{◌≢◌, IfNone, IfSome, codes, false};
ghost use Rattle.prolly_line.specs.AcceptedWords.{DoFit, DoLinesFit, DoesCutFit, DoesKeyFit};
ghost use Rattle.prolly_line.specs.AcceptedWords.{DoesSortFit, rows_in};
ghost use Rattle.prolly_line.specs.GivenCommand.{AreMisfit, GivesFlag, HasNone, HasWord, IsAskedFor};
ghost use Rattle.prolly_line.specs.GivenCommand.{IsMisfitCut, IsMisfitKey, IsMisfitLines};
ghost use Rattle.prolly_line.specs.GivenCommand.{IsMisfitSort, IsWordFault};

use crate::assembly::Line;
use crate::command::refusal;
use crate::parse_fault::ParseFault;
use crate::values::{flag_of, is_given};
use clap::ArgMatches;
use clap::error::ErrorKind;
use std::alloc::Global;

/// Which words are missing, or one too many.
#[derive(Clone, Copy)]
pub(crate) enum Misfit {
    /// `--to` without `--from`.
    LoneTo,
    /// Neither a key nor something in its place.
    NoKey,
    /// No output.
    NoOut,
    /// A key beside a range.
    KeyBesideRange,
    /// A key beside `--keys`.
    KeyBesideKeys,
    /// `--from` beside `--keys`.
    FromBesideKeys,
    /// `--to` beside `--keys`.
    ToBesideKeys,
    /// `--raw` beside `--keys`.
    RawBesideKeys,
    /// What needs `--sort`, without it.
    NoSort,
    /// What needs `--lines`, without it.
    NoLines,
    /// Neither a file nor `--lines`.
    NoFile,
    /// A file beside `--lines`.
    FileBesideLines,
    /// `--bits` beside `--chunk-bytes`.
    BitsBesideChunkBytes,
}

impl Misfit {
    /// Which of the words do not fit. The command takes a key, and behind it a word of the name
    /// `last`. With `--from` or `--keys` there is no key, and the last word stands in its place.
    pub(crate) fn of(given: &ArgMatches<'_>, last: &str, needs_last: bool) -> Option<Misfit>
        ensures some { IfSome result (λ _. AreMisfit last.now needs_last (rows_in given.now)) }
        ensures none { IfNone result (DoFit last.now needs_last (rows_in given.now)) }
    {
        if is_given(given, "keys") {
            Misfit::beside_keys(given, last, needs_last)
        } else if is_given(given, "from") {
            Misfit::beside_range(given, last, needs_last)
        } else {
            Misfit::beside_key(given, last, needs_last)
        }
    }

    /// What does not fit, of a command that takes a key, or `--keys` in its place, and no word behind.
    pub(crate) fn of_key(given: &ArgMatches<'_>) -> Option<Misfit>
        ensures some { IfSome result (λ _. IsMisfitKey (rows_in given.now)) }
        ensures none { IfNone result (DoesKeyFit (rows_in given.now)) }
    {
        match (is_given(given, "keys"), is_given(given, "key")) {
            (true, true) => Some(Misfit::KeyBesideKeys),
            (false, false) => Some(Misfit::NoKey),
            (true, false) if flag_of(given, "raw") => Some(Misfit::RawBesideKeys),
            _ => None,
        }
    }

    /// What does not fit, of a command that packs lines.
    pub(crate) fn of_sort(given: &ArgMatches<'_>) -> Option<Misfit>
        ensures some { IfSome result (λ _. IsMisfitSort (rows_in given.now)) }
        ensures none { IfNone result (DoesSortFit (rows_in given.now)) }
    {
        if flag_of(given, "sort") {
            return None;
        }
        if flag_of(given, "unique") {
            return Some(Misfit::NoSort);
        }
        if is_given(given, "memory") {
            return Some(Misfit::NoSort);
        }
        None
    }

    /// What does not fit, of a command that explains a file, or lines in its place.
    pub(crate) fn of_lines(given: &ArgMatches<'_>) -> Option<Misfit>
        ensures some { IfSome result (λ _. IsMisfitLines (rows_in given.now)) }
        ensures none { IfNone result (DoLinesFit (rows_in given.now)) }
    {
        match (flag_of(given, "lines"), is_given(given, "file")) {
            (true, true) => Some(Misfit::FileBesideLines),
            (true, false) => None,
            (false, false) => Some(Misfit::NoFile),
            (false, true) => Misfit::beside_file(given),
        }
    }

    /// The same, where there is a file and no `--lines`.
    fn beside_file(given: &ArgMatches<'_>) -> Option<Misfit>
        requires none { GivesFlag (rows_in given.now) (codes "lines") false }
        requires file { HasWord (codes "file") (rows_in given.now) }
        ensures some { IfSome result (λ _. IsMisfitLines (rows_in given.now)) }
        ensures none { IfNone result (DoLinesFit (rows_in given.now)) }
    {
        if flag_of(given, "removals") {
            return Some(Misfit::NoLines);
        }
        if flag_of(given, "all") {
            return Some(Misfit::NoLines);
        }
        None
    }

    /// What does not fit, of a command that cuts a tree.
    pub(crate) fn of_cut(given: &ArgMatches<'_>) -> Option<Misfit>
        ensures some { IfSome result (λ _. IsMisfitCut (rows_in given.now)) }
        ensures none { IfNone result (DoesCutFit (rows_in given.now)) }
    {
        match (is_given(given, "bits"), is_given(given, "chunk-bytes")) {
            (true, true) => Some(Misfit::BitsBesideChunkBytes),
            _ => None,
        }
    }

    /// The same as of the words of [`of`](Misfit::of), where there are many keys.
    fn beside_keys(given: &ArgMatches<'_>, last: &str, needs_last: bool) -> Option<Misfit>
        requires { HasWord (codes "keys") (rows_in given.now) }
        ensures some { IfSome result (λ _. AreMisfit last.now needs_last (rows_in given.now)) }
        ensures none { IfNone result (DoFit last.now needs_last (rows_in given.now)) }
    {
        if is_given(given, "from") {
            return Some(Misfit::FromBesideKeys);
        }
        if is_given(given, "to") {
            return Some(Misfit::ToBesideKeys);
        }
        if is_given(given, last) {
            return Some(Misfit::KeyBesideKeys);
        }
        if needs_last && !is_given(given, "key") {
            return Some(Misfit::NoOut);
        }
        None
    }

    /// The same, where there is a range.
    fn beside_range(given: &ArgMatches<'_>, last: &str, needs_last: bool) -> Option<Misfit>
        requires none { HasNone (codes "keys") (rows_in given.now) }
        requires range { HasWord (codes "from") (rows_in given.now) }
        ensures some { IfSome result (λ _. AreMisfit last.now needs_last (rows_in given.now)) }
        ensures none { IfNone result (DoFit last.now needs_last (rows_in given.now)) }
    {
        if is_given(given, last) {
            return Some(Misfit::KeyBesideRange);
        }
        if needs_last && !is_given(given, "key") {
            return Some(Misfit::NoOut);
        }
        None
    }

    /// The same, where there is neither.
    fn beside_key(given: &ArgMatches<'_>, last: &str, needs_last: bool) -> Option<Misfit>
        requires none { HasNone (codes "keys") (rows_in given.now) }
        requires no_range { HasNone (codes "from") (rows_in given.now) }
        ensures some { IfSome result (λ _. AreMisfit last.now needs_last (rows_in given.now)) }
        ensures none { IfNone result (DoFit last.now needs_last (rows_in given.now)) }
    {
        if is_given(given, "to") {
            return Some(Misfit::LoneTo);
        }
        if !is_given(given, "key") {
            return Some(Misfit::NoKey);
        }
        if needs_last && !is_given(given, last) {
            return Some(Misfit::NoOut);
        }
        None
    }

    /// How it is told, as by clap, with the usage of the line.
    pub(crate) fn fault(self, alloc: Global, line: Line<'_>) -> ParseFault
        ensures { IsWordFault result }
    {
        let Ok(mut line) = line else {
            return ParseFault::Memory;
        };
        match line.error(self.kind(), self.text()) {
            Ok(error) => refusal(alloc, &error),
            Err(_) => ParseFault::Memory,
        }
    }

    /// The kind of clap's errors that it is one of.
    fn kind(self) -> ErrorKind
        ensures { (IsAskedFor result → ⊥) × (result ≢ ErrorKind.OutOfMemory) }
    {
        match self {
            Misfit::KeyBesideRange
            | Misfit::KeyBesideKeys
            | Misfit::FromBesideKeys
            | Misfit::ToBesideKeys
            | Misfit::RawBesideKeys
            | Misfit::FileBesideLines
            | Misfit::BitsBesideChunkBytes => ErrorKind::ArgumentConflict,
            _ => ErrorKind::MissingRequiredArgument,
        }
    }

    /// What is said of it.
    fn text(self) -> &'static str {
        match self {
            Misfit::LoneTo => "the following required arguments were not provided:\n  --from <KEY>",
            Misfit::NoKey => "the following required arguments were not provided:\n  <KEY>",
            Misfit::NoOut => "the following required arguments were not provided:\n  <OUT>",
            Misfit::KeyBesideRange => "the argument '--from <KEY>' cannot be used with '<KEY>'",
            Misfit::KeyBesideKeys => "the argument '--keys <KEYS>' cannot be used with '<KEY>'",
            Misfit::FromBesideKeys => {
                "the argument '--keys <KEYS>' cannot be used with '--from <KEY>'"
            }
            Misfit::ToBesideKeys => {
                "the argument '--keys <KEYS>' cannot be used with '--to <KEY>'"
            }
            Misfit::RawBesideKeys => "the argument '--keys <KEYS>' cannot be used with '--raw'",
            Misfit::NoSort => "the following required arguments were not provided:\n  --sort",
            Misfit::NoLines => "the following required arguments were not provided:\n  --lines",
            Misfit::NoFile => "the following required arguments were not provided:\n  <FILE>",
            Misfit::FileBesideLines => "the argument '--lines' cannot be used with '<FILE>'",
            Misfit::BitsBesideChunkBytes => {
                "the argument '--bits <Q>' cannot be used with '--chunk-bytes <N>'"
            }
        }
    }
}
