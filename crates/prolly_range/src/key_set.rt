//! Sets of keys.
ghost use Rattle.std.specs.Prelude.{◌≡◌, option_map};
ghost use Rattle.prolly_range.specs.KeySet.{has_key, is_before, keys_in, part_behind};
ghost use Rattle.prolly_range.specs.KeySet.{part_below, set_of, some_keys};
ghost use Rattle.std.specs.Option.{option_copied};

use crate::sorted_keys::SortedKeys;
use prolly_entry::key_order;

/// A set of keys that are sought together.
#[derive(Clone, Copy)]
pub enum KeySet<'a> {
    /// The keys that are not less than `from`, and less than `to`; where there is no `to`, all that
    /// are not less than `from`.
    Range {
        from: &'a [u8],
        to: Option<&'a [u8]>,
    },
    /// These keys.
    Keys(SortedKeys<'a>),
}

impl<'a> KeySet<'a> {
    /// Whether the key is one of the set. Of n keys it is compared with O(log n).
    pub fn has(self, key: &[u8]) -> bool
        ensures { result ≡ has_key (set_of self.entry) key.now }
    {
        match self {
            KeySet::Range { from, to } => !key_order(key, from).is_lt() && is_before(to, key),
            KeySet::Keys(keys) => keys.has(key),
        }
    }

    /// What of the set may stand among keys of which this is the greatest.
    pub(crate) fn below(self, greatest: &[u8]) -> Option<KeySet<'a>>
        ensures { option_map set_of result ≡ part_below (set_of self.entry) greatest.now }
    {
        match self {
            KeySet::Range { from, .. } => {
                if key_order(greatest, from).is_lt() {
                    return None;
                }
                Some(self)
            }
            KeySet::Keys(keys) => some_keys(keys.split(greatest).0),
        }
    }

    /// What of the set may stand among keys that are greater than this one.
    pub(crate) fn behind(self, key: &[u8]) -> Option<KeySet<'a>>
        ensures { option_map set_of result ≡ part_behind (set_of self.entry) key.now }
    {
        match self {
            KeySet::Range { to, .. } => {
                if is_before(to, key) {
                    return Some(self);
                }
                None
            }
            KeySet::Keys(keys) => some_keys(keys.split(key).1),
        }
    }
}

/// Whether the key is less than the end of a range, where that has one.
fn is_before(to: Option<&[u8]>, key: &[u8]) -> bool
    ensures { result ≡ is_before (option_copied to.entry) key.now }
{
    match to {
        None => true,
        Some(to) => key_order(key, to).is_lt(),
    }
}

/// The set of these keys, if there are some.
fn some_keys<'a>(keys: SortedKeys<'a>) -> Option<KeySet<'a>>
    ensures { option_map set_of result ≡ some_keys (keys_in keys.entry) }
{
    if keys.keys().is_empty() {
        return None;
    }
    Some(KeySet::Keys(keys))
}
