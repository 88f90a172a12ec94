//! The roots that the words write.
ghost use Rattle.std.specs.Prelude.{◌≡◌, IfErr, IfOk, codes};
ghost use Rattle.prolly_line.specs.GivenCommand.{GivesBadRoot, GivesBadRootAs, GivesRootAs};
ghost use Rattle.prolly_line.specs.GivenCommand.{GivesTrust, MayGiveRoots};
ghost use Rattle.prolly_line.specs.AcceptedWords.{AreRefusedRoots, HasNumber, HasWord, rows_in};
ghost use Rattle.prolly_line.specs.declared.parse_fault.ParseFault.TheVariants.{BadRoot};

use crate::parse_fault::ParseFault;
use crate::root_pair::RootPair;
use crate::values::numbers::byte_of;
use crate::values::words::{is_given, word_of};
use clap::ArgMatches;
use prolly_entry::Ref;

/// The root of a subcommand that takes one under this name.
pub(crate) fn root_of(given: &ArgMatches<'_>, name: &str) -> Result<Ref, ParseFault>
    requires { HasWord name.now (rows_in given.now) }
    ensures root { IfOk result (λ root. GivesRootAs name.now (rows_in given.now) root.0) }
    ensures refused { IfErr result (λ fault.
        (fault ≡ BadRoot) × GivesBadRootAs name.now (rows_in given.now)) }
{
    let text = word_of(given, name).as_bytes();
    Ref::from_text(text).ok_or(ParseFault::BadRoot)
}

/// What a look-up trusts: a root, if one is given, and the version of the chunks.
pub(crate) fn trust_of(given: &ArgMatches<'_>) -> Result<(Option<Ref>, u8), ParseFault>
    requires { HasNumber (codes "format") 1 2 (rows_in given.now) }
    ensures trust { IfOk result (λ trust. GivesTrust (rows_in given.now) trust.0 trust.1) }
    ensures refused { IfErr result (λ fault.
        (fault ≡ BadRoot) × GivesBadRoot (rows_in given.now)) }
{
    let root = match given.get_str("root") {
        None => None,
        Some(_) => Some(root_of(given, "root")?),
    };
    Ok((root, byte_of(given, "format")))
}

/// The roots of two trees, where they are given: both of them, or none.
pub(crate) fn roots_of(given: &ArgMatches<'_>) -> Result<Option<RootPair>, ParseFault>
    ensures roots { IfOk result (MayGiveRoots (rows_in given.now)) }
    ensures refused { IfErr result (AreRefusedRoots (rows_in given.now)) }
{
    let is_old_given = is_given(given, "old-root");
    if is_old_given != is_given(given, "new-root") {
        return Err(ParseFault::LoneRoot);
    }
    if !is_old_given {
        return Ok(None);
    }
    Ok(Some(RootPair {
        old: root_of(given, "old-root")?,
        new: root_of(given, "new-root")?,
    }))
}
