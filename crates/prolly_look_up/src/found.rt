//! What a look-up finds where it ends.
ghost use Rattle.std.specs.Prelude.{◌≡◌, ◌≤◌, length, IfSome};
ghost use Rattle.std.specs.Option.{option_copied};
ghost use Rattle.prolly_tree.specs.LookUp.{find, nth};
ghost use Rattle.prolly_look_up.specs.FoundPairs.{pair_found};
ghost use Rattle.prolly_look_up.specs.Sought.{sought_of};
ghost use Rattle.prolly_look_up.specs.Way.{nth_sought};

use crate::entries::Pairs;
use crate::sought::Sought;
use prolly_entry::key_order;

/// The value of the key among the pairs of a leaf. Takes no memory, and time linear in the leaf.
pub fn value_in<'a>(mut pairs: Pairs<'a>, key: &[u8]) -> Option<&'a [u8]>
    ensures { option_copied result ≡ find pairs.entry key.now }
{
    while let Some((found, value)) = pairs.next() {
        if key_order(found, key).is_eq() {
            return Some(value);
        }
    }
    None
}

/// The pair whose number is sought, counted from 0, among the pairs of a leaf. There is none where a
/// key is sought. Takes no memory, and time linear in the number.
pub fn pair_sought<'a>(pairs: Pairs<'a>, sought: Sought<'_>) -> Option<(&'a [u8], &'a [u8])>
    ensures is { pair_found result ≡ nth_sought (sought_of sought.entry) pairs.entry }
    ensures lawful { IfSome result (λ pair.
        (length pair.0.now ≤ 1024) × (length pair.1.now ≤ 65536)) }
{
    match sought {
        Sought::Key(_) => None,
        Sought::Number(n) => pair_at(pairs, n),
    }
}

/// The pair of this number, counted from 0.
fn pair_at<'a>(mut pairs: Pairs<'a>, n: u64) -> Option<(&'a [u8], &'a [u8])>
    ensures is { pair_found result ≡ nth pairs.entry n }
    ensures lawful { IfSome result (λ pair.
        (length pair.0.now ≤ 1024) × (length pair.1.now ≤ 65536)) }
{
    let mut ahead = n;
    while let Some(pair) = pairs.next() {
        if ahead == 0 {
            return Some(pair);
        }
        ahead -= 1;
    }
    None
}
