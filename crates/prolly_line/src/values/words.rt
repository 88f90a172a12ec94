//! The words that stand under a name.
ghost use Rattle.std.specs.Prelude.{[], ◌∷◌, ◌≡◌, ◌≤◌, IfOk, None, Some, false, length, map};
ghost use Rattle.std.specs.Prelude.{option_map, string_bytes, true, unwrap_or};
ghost use Rattle.clap.specs.Words.{Text, all_of, first_of};
ghost use Rattle.prolly_line.specs.GivenCommand.{GivesOption, GivesWord, GivesWords};
ghost use Rattle.prolly_line.specs.AcceptedWords.{HasWord, rows_in};

use clap::ArgMatches;
use std::alloc::{AllocError, Global};

/// A word that has to be there.
pub(super) fn word_of<'a>(given: &ArgMatches<'a>, name: &str) -> &'a str
    requires { HasWord name.now (rows_in given.now) }
    ensures { first_of name.now (rows_in given.now) ≡ Some result.now }
{
    given.get_str(name).unwrap()
}

/// A copy of a word that has to be there.
pub(crate) fn text_of(
    alloc: Global,
    given: &ArgMatches<'_>,
    name: &str,
) -> Result<String, AllocError>
    requires { HasWord name.now (rows_in given.now) }
    ensures { IfOk result (λ text. GivesWord (rows_in given.now) name.now (string_bytes text)) }
{
    String::from_str(alloc, word_of(given, name))
}

/// A copy of a word that may be missing.
pub(crate) fn option_of(
    alloc: Global,
    given: &ArgMatches<'_>,
    name: &str,
) -> Result<Option<String>, AllocError>
    ensures { IfOk result (λ text.
        GivesOption (rows_in given.now) name.now (option_map string_bytes text)) }
{
    match given.get_str(name) {
        None => Ok(None),
        Some(word) => Ok(Some(String::from_str(alloc, word)?)),
    }
}

/// Whether several words stand under a name.
pub(crate) fn has_several(given: &ArgMatches<'_>, name: &str) -> bool
    ensures yes { result ≡ true → 2 ≤ length (unwrap_or (all_of name.now (rows_in given.now)) []) }
    ensures no { result ≡ false → (word : Text) → first_of name.now (rows_in given.now) ≡ Some word
        → unwrap_or (all_of name.now (rows_in given.now)) [] ≡ word ∷ [] }
{
    match given.get_strs(name) {
        None => false,
        Some(words) => words.len() > 1,
    }
}

/// Copies of all the words under a name.
pub(crate) fn texts_of(
    alloc: Global,
    given: &ArgMatches<'_>,
    name: &str,
) -> Result<Vec<String>, AllocError>
    ensures { IfOk result (λ texts.
        GivesWords (rows_in given.now) name.now (map string_bytes texts.items)) }
{
    match given.get_strs(name) {
        None => Ok(Vec::new(alloc)),
        Some(words) => copies_of(alloc, words),
    }
}

/// Copies of words.
fn copies_of(alloc: Global, words: &[&str]) -> Result<Vec<String>, AllocError>
    ensures { IfOk result (λ copies.
        map string_bytes copies.items ≡ map (λ word. word.now) words.now) }
{
    let mut copies = Vec::new(alloc);
    for word in words {
        copies.push(String::from_str(alloc, word)?)?;
    }
    Ok(copies)
}

/// Whether a word stands under this name.
pub(crate) fn is_given(given: &ArgMatches<'_>, name: &str) -> bool
    ensures yes { result ≡ true → HasWord name.now (rows_in given.now) }
    ensures no { result ≡ false → first_of name.now (rows_in given.now) ≡ None }
{
    given.get_str(name).is_some()
}
