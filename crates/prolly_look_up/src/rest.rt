//! The pairs of a chunk from a key on.
ghost use Rattle.std.specs.Prelude.{◌≡◌, ◌++◌, List};
ghost use Rattle.prolly_entry.specs.Pair.{Pair as PairValue};
ghost use Rattle.prolly_tree.specs.Difference.{IsMap};
ghost use Rattle.prolly_look_up.specs.HeldPairs.{pairs_held};
ghost use Rattle.prolly_look_up.specs.PairsFrom.{IsLeft, pairs_from};
ghost use Rattle.prolly_look_up.specs.Way.{IsOrdered};

use crate::entries::{Pairs, pairs_of};
use prolly_entry::{Version, key_order};

/// The pairs of a chunk that was tested whose key is not less than `from`, and a mark: how many bytes
/// its pairs take from the last one on that is less. A node has no pairs.
///
/// It begins at the given mark where the pair there is less than `from`, and else at the first pair.
/// 0 is a mark of each chunk, and stands behind all pairs. Takes no memory, and time linear in the
/// pairs that are passed over.
pub fn rest_from<'c>(
    version: Version,
    chunk: &'c [u8],
    mark: usize,
    from: &[u8],
) -> (Pairs<'c>, usize)
    requires ordered { IsOrdered version chunk.now }
    requires mark { IsLeft (pairs_held chunk.now) mark }
    ensures pairs { result.0 ≡ pairs_from from.now (pairs_held chunk.now) }
    ensures mark { IsLeft (pairs_held chunk.now) result.1 }
{
    let mut passed = mark;
    let mut rest = begin(version, chunk, mark, from);
    while let Some((key, _)) = rest.first() {
        if !key_order(key, from).is_lt() {
            return (rest, passed);
        }
        passed = rest.spellings().len();
        let _ = rest.next();
    }
    (rest, passed)
}

/// The pairs at which [`rest_from`] begins.
fn begin<'c>(version: Version, chunk: &'c [u8], mark: usize, from: &[u8]) -> Pairs<'c>
    requires ordered { IsOrdered version chunk.now }
    requires mark { IsLeft (pairs_held chunk.now) mark }
    ensures end { (before : List PairValue) × (pairs_held chunk.now ≡ before ++ result) }
    ensures same { pairs_from from.now (pairs_held chunk.now) ≡ pairs_from from.now result }
    ensures rising { IsMap result }
{
    let all = pairs_of(version, chunk);
    let entries = all.spellings();
    let marked = Pairs::new(&entries[entries.len() - mark..]);
    match marked.first() {
        Some((key, _)) if key_order(key, from).is_lt() => marked,
        _ => all,
    }
}
