//! Places sorted by the first bytes in which their keys differ, group by group.
ghost use Rattle.std.specs.Prelude.{◌<◌, IsPermutation, IsSortedBy, length};
ghost use Rattle.prolly_sort.specs.Place.{AreInOrder, IsFirstGroup, SamePlaces, comes_before};

use crate::place::{Place, place_order};
use crate::rank::rank_places;

/// How many levels of groups are ranked, at most.
pub(crate) const LEVELS: u32 = 8;

/// So few places are not worth a level of their own.
const FEW: usize = 20;

/// Puts places in the order of their keys, and those of one key in the order of their numbers.
/// Takes no memory.
///
/// It sorts by the most significant bytes first: places are ranked by eight bytes of their keys,
/// those behind the front that all of them have in common, and sorted by these. Places with the same
/// eight bytes are then a group, whose keys have a longer front in common. So a second table, or a
/// key that begins as no other does, costs no more than a level.
///
/// The keys themselves are compared where places are few, where no eight bytes tell them apart, and
/// behind the last level. So whatever the keys are, it takes O(n log n) comparisons of keys, and on
/// each level as many of numbers and two looks at each key.
pub(crate) fn sort_group(bytes: &[u8], places: &mut [Place], levels: u32)
    ensures same { SamePlaces places.old places.new }
    ensures sorted { AreInOrder bytes.now places.new }
{
    if places.len() < 2 {
        return;
    }
    rank_places(bytes, places);
    if levels == 0 || places.len() <= FEW || group_len(places) == places.len() {
        sort_by_keys(bytes, places);
        return;
    }
    places.sort_unstable_by_key(|place| place.prefix);
    let mut start = 0;
    while start < places.len() {
        let end = start + group_len(&places[start..]);
        sort_group(bytes, &mut places[start..end], levels - 1);
        start = end;
    }
}

/// Puts places in that order by their whole keys. Many places are put in the order of their numbers
/// first: where all of them have one key, they are in order then, and one pass over the keys sees it.
fn sort_by_keys(bytes: &[u8], places: &mut [Place])
    ensures same { IsPermutation places.old places.new }
    ensures sorted { IsSortedBy (comes_before bytes.now) places.new }
{
    if places.len() > FEW {
        places.sort_unstable_by_key(|place| place.number);
    }
    places.sort_unstable_by(|one, other| place_order(bytes, *one, *other));
}

/// How many places there are up to the first that is not ranked as the first one is.
fn group_len(places: &[Place]) -> usize
    requires { 0 < length places.now }
    ensures { IsFirstGroup places.now result }
{
    let prefix = places[0].prefix;
    for len in 1..places.len() {
        if places[len].prefix != prefix {
            return len;
        }
    }
    places.len()
}
