//! One of two maps, from where a walk stands.
ghost use Rattle.std.specs.Prelude.{◌≡◌, ◌<◌, [], ◌∷◌, ◌++◌, true, false, length, MatchOption};
ghost use Rattle.prolly_diff.specs.Sides.{pairs_in_hand, StartsWith};
ghost use Rattle.prolly_tree.specs.Walks.{AreAlike};

use prolly_check::Leaves;
use prolly_look_up::Pairs;
use std::marker::Model;

/// The pairs of a map that are left. Contracts see their list.
#[derive(Drop)]
pub(crate) struct Side<'a> {
    // Those that are left of the leaf in hand.
    leaf: Option<Pairs<'a>>,
    leaves: Leaves<'a>,
}

impl<'a> Model for Side<'a> {
    ghost use Rattle.std.specs.Prelude.{◌++◌, List};
    ghost use Rattle.prolly_entry.specs.Pair.{Pair as PairValue};
    ghost use Rattle.prolly_diff.specs.Sides.{pairs_in_hand};

    ghost Value = { List PairValue };

    ghost view = { λ s. pairs_in_hand s.leaf ++ s.leaves };
}

impl<'a> Side<'a> {
    /// All pairs of the leaves.
    pub(crate) fn new(leaves: Leaves<'a>) -> Side<'a>
        ensures { result ≡ leaves.entry }
    {
        Side { leaf: None, leaves }
    }

    /// The first pair.
    pub(crate) fn peek(&mut self) -> Option<(&'a [u8], &'a [u8])>
        ensures same { self.new ≡ self.old }
        ensures first { MatchOption result (self.old ≡ [])
            (λ first. StartsWith (record { key = first.0.now; value = first.1.now }) self.old) }
    {
        open_next(&mut self.leaf, &mut self.leaves);
        match &self.leaf {
            Some(leaf) => leaf.first(),
            None => None,
        }
    }

    /// Takes the first pair away.
    pub(crate) fn take(&mut self) -> Option<(&'a [u8], &'a [u8])>
        ensures { MatchOption result ((self.old ≡ []) × (self.new ≡ []))
            (λ first. self.old ≡ record { key = first.0.now; value = first.1.now } ∷ self.new) }
    {
        open_next(&mut self.leaf, &mut self.leaves);
        match &mut self.leaf {
            Some(leaf) => leaf.next(),
            None => None,
        }
    }
}

/// Takes the next leaf in hand, where nothing is left of the last one, and answers whether it did.
fn open_next<'a>(leaf: &mut Option<Pairs<'a>>, leaves: &mut Leaves<'a>) -> bool
    ensures same { pairs_in_hand leaf.new ++ leaves.new ≡ pairs_in_hand leaf.old ++ leaves.old }
    ensures some { pairs_in_hand leaf.new ≡ [] → leaves.new ≡ [] }
{
    if let Some(pairs) = leaf
        && !pairs.is_empty()
    {
        return false;
    }
    *leaf = leaves.next();
    true
}

/// Passes over the leaves that both sides have next.
pub(crate) fn pass_shared(before: &mut Side, after: &mut Side)
    ensures { AreAlike (record { before = before.old; after = after.old })
        (record { before = before.new; after = after.new }) }
{
    while pass_leaf(before, after) {}
}

/// Whether both sides have the same pairs in hand, which are then let go.
fn pass_leaf(before: &mut Side, after: &mut Side) -> bool
    ensures passed { result ≡ true →
        AreAlike (record { before = before.old; after = after.old })
        (record { before = before.new; after = after.new }) }
    ensures less { result ≡ true → length before.new < length before.old }
    ensures same { result ≡ false → (before.new ≡ before.old) × (after.new ≡ after.old) }
{
    // What is in hand of both was compared when the later one of them was opened.
    let before_opened = open_next(&mut before.leaf, &mut before.leaves);
    let after_opened = open_next(&mut after.leaf, &mut after.leaves);
    if !before_opened && !after_opened || !have_same(&before.leaf, &after.leaf) {
        return false;
    }
    let _ = before.leaf.take();
    let _ = after.leaf.take();
    true
}

/// Whether the same pairs are left of both leaves, and some.
fn have_same(before: &Option<Pairs<'_>>, after: &Option<Pairs<'_>>) -> bool
    ensures some { result ≡ true → 0 < length (pairs_in_hand before.now) }
    ensures same { result ≡ true → pairs_in_hand before.now ≡ pairs_in_hand after.now }
{
    match (before, after) {
        (Some(before), Some(after)) => !before.is_empty() && before.is_same(after),
        _ => false,
    }
}
