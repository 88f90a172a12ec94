//! What looking up takes.
ghost use Rattle.std.specs.Prelude.{IfErr, IfOk, codes};
ghost use Rattle.clap.specs.Words.{Rule, with_rule};
ghost use Rattle.prolly_line.specs.AcceptedWords.{HasNumber, HasWord, IsRefusedLookUp, rows_in};
ghost use Rattle.prolly_line.specs.GivenCommand.{GivesKey, GivesNotation, GivesTrust};
ghost use Rattle.prolly_line.specs.Line.{look_up_line};
ghost use Rattle.prolly_line.specs.LocalArgs.{HasCommandLine, IsReadBy};

use crate::arguments;
use crate::assembly::{Line, described, with_argument};
use crate::commands::shared::{CHUNK_FILE, with_trust};
use crate::help::Help;
use crate::parse_fault::ParseFault;
use crate::values::{key_of, trust_of};
use clap::{Arg, ArgMatches};
use prolly_entry::Ref;
use prolly_text::Notation;
use std::alloc::Global;

/// `NAME [--text] [--root ROOT] [--format V] FILE SOUGHT`, a look-up in a file, or by a root that it
/// trusts; `text` says for the help of `--text` what is text then.
pub(crate) fn look_up_line<'a>(
    alloc: Global,
    name: &'a str,
    help: Help<'a>,
    text: &'a str,
    sought: Arg<'a>,
) -> Line<'a>
    ensures { (rule : Rule) → IsReadBy rule sought.entry
        → IfOk result (HasCommandLine (with_rule (look_up_line name.now) rule)) }
{
    let line = described(alloc, name, help).arg(arguments::text_flag(alloc, text));
    let line = with_trust(alloc, line);
    let line = with_argument(line, arguments::file_word(alloc, CHUNK_FILE));
    with_argument(line, sought)
}

/// What a look-up of a key trusts, and the key. A bad root is told before a bad key.
pub(crate) fn trusted_key(
    alloc: Global,
    given: &ArgMatches<'_>,
    notation: Notation,
) -> Result<(Option<Ref>, u8, Vec<u8>), ParseFault>
    requires format { HasNumber (codes "format") 1 2 (rows_in given.now) }
    requires key { HasWord (codes "key") (rows_in given.now) }
    requires notation { GivesNotation (rows_in given.now) notation }
    ensures trust { IfOk result (λ found. GivesTrust (rows_in given.now) found.0 found.1) }
    ensures key { IfOk result (λ found. GivesKey (rows_in given.now) notation found.2.items) }
    ensures refused { IfErr result (IsRefusedLookUp (rows_in given.now)) }
{
    let trust = trust_of(given)?;
    let key = key_of(alloc, given, "key", notation)?;
    Ok((trust.0, trust.1, key))
}
