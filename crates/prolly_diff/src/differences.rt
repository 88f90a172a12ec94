//! The walk over two trees.
ghost use Rattle.std.specs.Prelude.{◌≡◌, MatchOption};
ghost use Rattle.std.specs.Option.{option_copied, option_map};
ghost use Rattle.prolly_tree.specs.Difference.{IsMap};
ghost use Rattle.prolly_look_up.specs.Content.{Content, IsFileOf};
ghost use Rattle.prolly_tree.specs.Walks.{IsWalkEnd, IsFirstChange, TakesLeast};
ghost use Rattle.prolly_diff.specs.Sides.{IsOrder};

use crate::side::{Side, pass_shared};
use prolly_check::Tree;
use prolly_entry::key_order;
use std::cmp::Ordering;
use std::marker::Model;

/// The changes that are left between two maps, in the order of their keys. Contracts see the two
/// maps, from where the walk stands.
///
/// Takes no memory. A leaf of one map is compared with the leaf of the other that stands at the
/// same place, byte by byte, and passed over where both have it; the others are read pair by pair.
/// Nodes are not read.
#[derive(Drop)]
pub struct Differences<'a> {
    before: Side<'a>,
    after: Side<'a>,
}

impl<'a> Model for Differences<'a> {
    ghost use Rattle.prolly_tree.specs.Difference.{IsMap};
    ghost use Rattle.prolly_tree.specs.Walks.{Maps};

    ghost Value = { Maps };

    ghost view = { λ d. record { before = d.before; after = d.after } };

    ghost invariant = { λ d. IsMap d.before × IsMap d.after };
}

impl<'a> Differences<'a> {
    /// What turns the one map into the other. Trees of different bits and versions will do.
    pub fn new(old: &'a Tree, new: &'a Tree) -> Differences<'a>
        ensures before { (content : Content) → IsFileOf old.now content →
            result.before ≡ content.pairs }
        ensures after { (content : Content) → IsFileOf new.now content →
            result.after ≡ content.pairs }
    {
        Differences {
            before: Side::new(old.leaves()),
            after: Side::new(new.leaves()),
        }
    }

    /// The next change, or none where the rest of both maps is the same. Behind that nothing is left
    /// of either, so there is none at each further call.
    pub fn next(&mut self) -> Option<Change<'a>>
        ensures { MatchOption result (IsWalkEnd self.old self.new)
            (λ change. IsFirstChange self.old change.key.now (option_copied change.before)
            (option_copied change.after) self.new) }
    {
        next_change(&mut self.before, &mut self.after)
    }
}

/// The next change between two sides.
fn next_change<'a>(before: &mut Side<'a>, after: &mut Side<'a>) -> Option<Change<'a>>
    requires { IsMap before.old × IsMap after.old }
    ensures change { MatchOption result (IsWalkEnd
        (record { before = before.old; after = after.old })
        (record { before = before.new; after = after.new }))
        (λ change. IsFirstChange (record { before = before.old; after = after.old })
        change.key.now (option_copied change.before) (option_copied change.after)
        (record { before = before.new; after = after.new })) }
    ensures left { IsMap before.new × IsMap after.new }
{
    loop {
        pass_shared(before, after);
        match take_least(before, after) {
            (Some((key, old)), Some((_, new))) => {
                if old != new {
                    return Some(Change::of(key, Some(old), Some(new)));
                }
            }
            (Some((key, old)), None) => return Some(Change::of(key, Some(old), None)),
            (None, Some((key, new))) => return Some(Change::of(key, None, Some(new))),
            (None, None) => return None,
        }
    }
}

/// What a key has in two maps, where that is not the same: a value, or nothing.
///
/// The key is new where there was nothing before, and is removed where there is nothing after.
#[derive(Clone, Copy)]
pub struct Change<'a> {
    /// The key.
    pub key: &'a [u8],
    /// What the old map has.
    pub before: Option<&'a [u8]>,
    /// What the new map has.
    pub after: Option<&'a [u8]>,
}

impl<'a> Change<'a> {
    /// What a key had, and what it has.
    pub(crate) fn of(key: &'a [u8], before: Option<&'a [u8]>, after: Option<&'a [u8]>) -> Change<'a>
        ensures key { result.key.now ≡ key.now }
        ensures before { option_copied result.before ≡ option_copied before.entry }
        ensures after { option_copied result.after ≡ option_copied after.entry }
    {
        Change { key, before, after }
    }
}

/// A key and its value.
type Entry<'a> = (&'a [u8], &'a [u8]);

/// Takes what the two sides have of the least key that either has, the one or both of them.
pub(crate) fn take_least<'a>(
    before: &mut Side<'a>,
    after: &mut Side<'a>,
) -> (Option<Entry<'a>>, Option<Entry<'a>>)
    requires { IsMap before.old × IsMap after.old }
    ensures { TakesLeast (record { before = before.old; after = after.old })
        (option_map (λ p. record { key = p.0.now; value = p.1.now }) result.0)
        (option_map (λ p. record { key = p.0.now; value = p.1.now }) result.1)
        (record { before = before.new; after = after.new }) }
{
    match entry_order(before.peek(), after.peek()) {
        Ordering::Less => (before.take(), None),
        Ordering::Greater => (None, after.take()),
        Ordering::Equal => (before.take(), after.take()),
    }
}

/// Which of two entries comes first: where there is none, the other one.
fn entry_order(before: Option<Entry<'_>>, after: Option<Entry<'_>>) -> Ordering
    ensures { IsOrder (option_map (λ p. record { key = p.0.now; value = p.1.now }) before.entry)
        (option_map (λ p. record { key = p.0.now; value = p.1.now }) after.entry) result }
{
    match (before, after) {
        (Some((before, _)), Some((after, _))) => key_order(before, after),
        (Some(_), None) => Ordering::Less,
        (None, _) => Ordering::Greater,
    }
}
