//! Places in the order of their keys.
ghost use Rattle.std.specs.Prelude.{◌≡◌, All, IfNone, IfSome, map, zero};
ghost use Rattle.std.specs.List.Sorted.{IsStableBy};
ghost use Rattle.prolly_entry.specs.Keys.{Rising};
ghost use Rattle.prolly_entry.specs.Record.{keys_of};
ghost use Rattle.prolly_sort.specs.Overlaid.{overlaid};
ghost use Rattle.prolly_sort.specs.Place.{AreInOrder, SamePlaces, StandsIn, is_below, records_in, unranked};
ghost use Rattle.prolly_sort.specs.Run.{AreNeighbours, NumberedFrom};

use crate::group::{LEVELS, sort_group};
use crate::place::{Place, have_one_key};

/// Puts places in the order of their keys; those of one key stay in their order. Takes no memory.
pub(crate) fn sort_places(bytes: &[u8], places: &mut Vec<Place>)
    requires { NumberedFrom zero places.old.items }
    ensures same { SamePlaces places.old.items places.new.items }
    ensures stable { IsStableBy (is_below bytes.now) (map unranked places.old.items)
        (map unranked places.new.items) }
    ensures in_order { AreInOrder bytes.now places.new.items }
{
    sort_group(bytes, places, LEVELS);
}

/// Of places in the order of their keys, keeps the last one of each key. Takes no memory.
pub(crate) fn keep_last(bytes: &[u8], places: &mut Vec<Place>)
    requires stand { All (StandsIn bytes.now) places.old.items }
    requires in_order { AreInOrder bytes.now places.old.items }
    ensures records { records_in bytes.now places.new.items ≡
        overlaid (records_in bytes.now places.old.items) }
    ensures stand { All (StandsIn bytes.now) places.new.items }
{
    // The first of two with one key stays, so the next one is put over it.
    places.dedup_by(|next, last| {
        let is_same = have_one_key(bytes, *last, *next);
        if is_same {
            *last = *next;
        }
        is_same
    });
}

/// The first two neighbours with one key among places in the order of their keys, if there are two.
pub(crate) fn first_doubled(bytes: &[u8], places: &[Place]) -> Option<(Place, Place)>
    requires { AreInOrder bytes.now places.now }
    ensures none { IfNone result (Rising (keys_of (records_in bytes.now places.now))) }
    ensures some { IfSome result (λ two. AreNeighbours bytes.now places.now two.0 two.1) }
{
    for behind in 1..places.len() {
        let one = places[behind - 1];
        let next = places[behind];
        if have_one_key(bytes, one, next) {
            return Some((one, next));
        }
    }
    None
}
