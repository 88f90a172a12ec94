//! Places and the first bytes in which their keys may differ.
ghost use Rattle.std.specs.Prelude.{◌≡◌, All, nat_eq, take};
ghost use Rattle.std.specs.List.{common_prefix_len};
ghost use Rattle.prolly_entry.specs.Prefix.{IsPrefix};
ghost use Rattle.prolly_sort.specs.Place.{WereRanked, key_in, ranked_behind};

use crate::place::{Place, prefix_of};

/// Fills the prefix of each place from behind the front that the keys of all these places have in
/// common. Keys of one table often begin alike, as `user:000017` and `user:000018`, so that their
/// first bytes tell nothing apart.
pub(crate) fn rank_places(bytes: &[u8], places: &mut [Place])
    ensures { WereRanked bytes.now places.old places.new }
{
    let skipped = common_front(bytes, places).len();
    for place in places.iter_mut() {
        place.prefix = prefix_of(&place.key(bytes)[skipped..]);
    }
}

/// The longest front that the keys of all places have in common. That it is the longest one is not
/// promised, since the order of places does not depend on it.
fn common_front<'a>(bytes: &'a [u8], places: &[Place]) -> &'a [u8]
    ensures { All (λ p. IsPrefix result.now (key_in bytes.now p)) places.now }
{
    let Some(first) = places.first() else {
        return &[];
    };
    let mut front = first.key(bytes);
    for place in places {
        front = shared_front(front, place.key(bytes));
    }
    front
}

/// The longest front that two keys have in common.
fn shared_front<'a>(one: &'a [u8], other: &[u8]) -> &'a [u8]
    ensures { result.now ≡ take (common_prefix_len nat_eq one.now other.now) one.now }
{
    let len = one.len().min(other.len());
    for at in 0..len {
        if one[at] != other[at] {
            return &one[..at];
        }
    }
    &one[..len]
}
