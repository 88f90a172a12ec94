//! How a walk over two trees goes on.
ghost use Rattle.std.specs.Prelude.{◌≡◌};
ghost use Rattle.std.specs.Option.{option_map};
ghost use Rattle.prolly_root_diff.specs.Sides.{left_of};
ghost use Rattle.prolly_root_diff.specs.Walks.{ComesTo, IsDue, IsOnward};

use crate::side::Side;
use prolly_entry::key_order;
use std::cmp::Ordering;

/// How it goes on.
#[derive(Clone, Copy, Debug)]
pub(crate) enum Onward {
    /// Behind the subtrees that are due first in both: they have one reference.
    Pass,
    /// In the old tree, by the chunk that is due there.
    OpenOld,
    /// In the new tree.
    OpenNew,
    /// Behind the pairs that are first in both: they are the same.
    Skip,
    /// The first pair of the old tree was removed.
    Removed,
    /// The first pair of the new tree was added.
    Added,
    /// The pairs that are first in both have one key and two values.
    Changed,
    /// Nothing is left.
    End,
}

/// How the walk goes on. Where both trees stand at the beginning of subtrees, the one that may be
/// higher is read first.
pub(crate) fn way_onward<T: Copy + Drop, U: Copy + Drop>(
    before: &Side<T>,
    after: &Side<U>,
) -> Onward
    ensures { IsOnward (left_of before.now) (left_of after.now) result }
{
    match (before.is_ready(), after.is_ready()) {
        (true, true) => at_pairs(before.first(), after.first()),
        (true, false) => Onward::OpenNew,
        (false, true) => Onward::OpenOld,
        (false, false) => at_subtrees(before, after),
    }
}

/// How it goes on where these pairs are the first of both trees.
fn at_pairs(before: Option<(&[u8], &[u8])>, after: Option<(&[u8], &[u8])>) -> Onward
    ensures { ComesTo (option_map (λ p. record { key = p.0.now; value = p.1.now }) before.entry)
        (option_map (λ p. record { key = p.0.now; value = p.1.now }) after.entry) result }
{
    match (before, after) {
        (None, None) => Onward::End,
        (Some(_), None) => Onward::Removed,
        (None, Some(_)) => Onward::Added,
        (Some((key, old)), Some((other, new))) => match key_order(key, other) {
            Ordering::Less => Onward::Removed,
            Ordering::Greater => Onward::Added,
            Ordering::Equal => {
                if old != new {
                    return Onward::Changed;
                }
                Onward::Skip
            }
        },
    }
}

/// How it goes on where both trees stand at the beginning of a subtree.
fn at_subtrees<T: Copy + Drop, U: Copy + Drop>(before: &Side<T>, after: &Side<U>) -> Onward
    requires before { IsDue (left_of before.now) }
    requires after { IsDue (left_of after.now) }
    ensures { IsOnward (left_of before.now) (left_of after.now) result }
{
    match (before.first_due(), after.first_due()) {
        (Some((first, _)), Some((second, _))) if first == second => Onward::Pass,
        (Some((_, first)), Some((_, second))) if first < second => Onward::OpenNew,
        _ => Onward::OpenOld,
    }
}
