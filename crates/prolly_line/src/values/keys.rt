//! The keys that the words write.
ghost use Rattle.std.specs.Prelude.{◌≡◌, ◌⊎◌, IfErr, IfOk, List, codes, ℕ};
ghost use Rattle.prolly_line.specs.GivenCommand.{GivesKeyAs, GivesNotation, GivesSought, HasNone};
ghost use Rattle.prolly_line.specs.GivenCommand.{IsKeyText, MayGiveKeyAs, bad_key, place_of_last};
ghost use Rattle.prolly_line.specs.AcceptedWords.{HasWord, IsRefusedKey, IsRefusedRange};
ghost use Rattle.prolly_line.specs.AcceptedWords.{IsRefusedSought, rows_in};
ghost use Rattle.prolly_line.specs.declared.parse_fault.ParseFault.TheVariants.{Memory};

use crate::parse_fault::ParseFault;
use crate::sought::Sought;
use crate::values::words::{is_given, text_of, word_of};
use clap::ArgMatches;
use prolly_entry::KEY_LIMIT;
use prolly_text::{Notation, TextFault};
use std::alloc::Global;

/// The key of a subcommand that takes one under this name, from its word in the notation of the
/// words.
pub(crate) fn key_of(
    alloc: Global,
    given: &ArgMatches<'_>,
    name: &str,
    notation: Notation,
) -> Result<Vec<u8>, ParseFault>
    requires word { HasWord name.now (rows_in given.now) }
    requires notation { GivesNotation (rows_in given.now) notation }
    ensures key { IfOk result (λ key. GivesKeyAs name.now (rows_in given.now) notation key.items) }
    ensures refused { IfErr result (IsRefusedKey name.now (rows_in given.now)) }
{
    decoded(alloc, notation, word_of(given, name))
}

/// The same of a key that may be missing.
fn optional_key_of(
    alloc: Global,
    given: &ArgMatches<'_>,
    name: &str,
    notation: Notation,
) -> Result<Option<Vec<u8>>, ParseFault>
    requires { GivesNotation (rows_in given.now) notation }
    ensures key { IfOk result (MayGiveKeyAs name.now (rows_in given.now) notation) }
    ensures refused { IfErr result (IsRefusedKey name.now (rows_in given.now)) }
{
    if !is_given(given, name) {
        return Ok(None);
    }
    Ok(Some(key_of(alloc, given, name, notation)?))
}

/// The range of a subcommand that takes one.
fn range_of(alloc: Global, given: &ArgMatches<'_>, notation: Notation) -> Result<Sought, ParseFault>
    requires none { HasNone (codes "keys") (rows_in given.now) }
    requires word { HasWord (codes "from") (rows_in given.now) }
    requires notation { GivesNotation (rows_in given.now) notation }
    ensures range { IfOk result (λ sought. GivesSought (rows_in given.now) notation sought) }
    ensures refused { IfErr result (IsRefusedRange (rows_in given.now)) }
{
    let from = key_of(alloc, given, "from", notation)?;
    let to = optional_key_of(alloc, given, "to", notation)?;
    Ok(Sought::Range { from, to })
}

/// What is sought: many keys where `--keys` is given, a range where `--from` is, and else a key.
pub(crate) fn sought_of(
    alloc: Global,
    given: &ArgMatches<'_>,
    notation: Notation,
) -> Result<Sought, ParseFault>
    requires word { HasNone (codes "keys") (rows_in given.now) →
        HasNone (codes "from") (rows_in given.now) → HasWord (codes "key") (rows_in given.now) }
    requires notation { GivesNotation (rows_in given.now) notation }
    ensures sought { IfOk result (λ sought. GivesSought (rows_in given.now) notation sought) }
    ensures refused { IfErr result (IsRefusedSought (rows_in given.now)) }
{
    if is_given(given, "keys") {
        return Ok(Sought::Keys(text_of(alloc, given, "keys")?));
    }
    if is_given(given, "from") {
        return range_of(alloc, given, notation);
    }
    Ok(Sought::Key(key_of(alloc, given, "key", notation)?))
}

/// The name under which the word stands that is the last one: `last`, or that of the key where
/// something else is sought in its place.
pub(crate) fn place_of_last<'a>(sought: &Sought, last: &'a str) -> &'a str
    ensures { result.now ≡ place_of_last sought.now last.now }
{
    match sought {
        Sought::Key(_) => last,
        Sought::Range { .. } | Sought::Keys(_) => "key",
    }
}

/// The key that a text writes in a notation.
fn decoded(alloc: Global, notation: Notation, text: &str) -> Result<Vec<u8>, ParseFault>
    ensures key { IfOk result (λ key. IsKeyText notation text.now key.items) }
    ensures refused { IfErr result (λ fault. (fault ≡ Memory)
        ⊎ ((fault ≡ bad_key notation) × ((key : List ℕ) → IsKeyText notation text.now key → ⊥))) }
{
    match notation.bytes_of(alloc, text.as_bytes()) {
        Ok(key) if key.len() <= KEY_LIMIT => Ok(key),
        Ok(_) => Err(bad_key(notation)),
        Err(TextFault::Memory) => Err(ParseFault::Memory),
        Err(TextFault::Bad) => Err(bad_key(notation)),
    }
}

/// How a bad word for a key is told.
fn bad_key(notation: Notation) -> ParseFault
    ensures { result ≡ bad_key notation }
{
    match notation {
        Notation::Hex => ParseFault::BadKey,
        Notation::Text => ParseFault::BadTextKey,
    }
}
