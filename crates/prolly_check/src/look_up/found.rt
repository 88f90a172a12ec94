//! What a look-up finds in a checked file.
ghost use Rattle.std.specs.Prelude.{◌≡◌};
ghost use Rattle.std.specs.Option.{option_copied};
ghost use Rattle.prolly_entry.specs.declared.version.Version.TheVariants.{Two};
ghost use Rattle.prolly_tree.specs.LookUp.{find, nth};
ghost use Rattle.prolly_look_up.specs.FoundPairs.{pair_found};

use crate::file::CheckedFile;
use crate::look_up::descent::descend;
use prolly_look_up::{Sought, pair_sought, value_in};

/// The value of the key in a file that was checked.
pub(crate) fn find_value<'f>(file: &CheckedFile<'f>, key: &[u8]) -> Option<&'f [u8]>
    ensures { option_copied result ≡ find file.now.pairs key.now }
{
    let end = descend(file, Sought::Key(key));
    value_in(file.pairs(end.number), key)
}

/// The pair of this number in a file of version Two that was checked.
pub(crate) fn find_nth<'f>(file: &CheckedFile<'f>, n: u64) -> Option<(&'f [u8], &'f [u8])>
    requires { file.now.version ≡ Two }
    ensures { pair_found result ≡ nth file.now.pairs n }
{
    let end = descend(file, Sought::Number(n));
    pair_sought(file.pairs(end.number), end.sought)
}
