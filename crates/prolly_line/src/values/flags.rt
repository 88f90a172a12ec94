//! The flags that the words have.
ghost use Rattle.prolly_line.specs.GivenCommand.{GivesFlag, GivesLines, GivesMode, GivesNotation};
ghost use Rattle.prolly_line.specs.AcceptedWords.{rows_in};

use crate::write_mode::WriteMode;
use clap::ArgMatches;
use prolly_text::Notation;

/// Whether the words have a flag: clap writes `true` under its name then, and `false` else.
pub(crate) fn flag_of(given: &ArgMatches<'_>, name: &str) -> bool
    ensures { GivesFlag (rows_in given.now) name.now result }
{
    match given.get_str(name) {
        Some(value) => value == "true",
        None => false,
    }
}

/// How the output is to be written.
pub(crate) fn mode_of(given: &ArgMatches<'_>) -> WriteMode
    ensures { GivesMode (rows_in given.now) result }
{
    WriteMode {
        atomic: flag_of(given, "atomic"),
        sync: flag_of(given, "sync"),
        force: flag_of(given, "force"),
    }
}

/// How keys and values are written.
pub(crate) fn notation_of(given: &ArgMatches<'_>) -> Notation
    ensures { GivesNotation (rows_in given.now) result }
{
    if flag_of(given, "text") {
        Notation::Text
    } else {
        Notation::Hex
    }
}

/// The notation of the lines that are dumped, or none for a record file.
pub(crate) fn lines_of(given: &ArgMatches<'_>) -> Option<Notation>
    ensures { GivesLines (rows_in given.now) result }
{
    match notation_of(given) {
        Notation::Text => Some(Notation::Text),
        Notation::Hex if flag_of(given, "hex") => Some(Notation::Hex),
        Notation::Hex => None,
    }
}
