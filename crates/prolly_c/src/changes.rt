//! Going over two chunk files side by side. Nothing is believed of cursors, indexes and bytes.
ghost use Rattle.std.specs.Prelude.{◌≡◌, IfOk};
ghost use Rattle.prolly_tree.specs.Walks.{AreMaps, Maps};
ghost use Rattle.prolly_c.specs.Changes.{AreAt, IsNearer, IsFound, TakesAs};
ghost use Rattle.prolly_c.specs.Runs.{Answers};

use crate::cursor::Cursors;
use crate::leaf::Entry;
use crate::run::Run;
use crate::status::WrongIndex;
use crate::steps::next_pair;
use prolly_entry::key_order;
use std::cmp::Ordering;

/// What two files have of the least key that either has, and the cursors behind that.
#[derive(Clone, Copy)]
pub(crate) enum Least<'a> {
    /// The old one alone has it.
    Old(Entry<'a>, Cursors),
    /// The new one alone has it.
    New(Entry<'a>, Cursors),
    /// Both have it.
    Both(Entry<'a>, Entry<'a>, Cursors),
    /// Neither has a key.
    Neither,
}

/// The next change, and the cursors behind it.
#[derive(Clone, Copy)]
pub(crate) enum Found<'a> {
    /// A pair is removed.
    Removed(Entry<'a>, Cursors),
    /// A pair is added.
    Added(Entry<'a>, Cursors),
    /// A pair gets another value.
    Changed(Entry<'a>, &'a [u8], Cursors),
    /// There is none.
    Nothing,
}

/// The next change behind the cursors.
pub(crate) fn next_change<'a>(
    old: &'a [u8],
    old_runs: &[Run],
    new: &'a [u8],
    new_runs: &[Run],
    cursors: Cursors,
) -> Result<Found<'a>, WrongIndex>
    ensures { (maps : Maps) → AreMaps maps →
        AreAt old.now old_runs.now new.now new_runs.now cursors maps →
        Answers (IsFound old.now old_runs.now new.now new_runs.now maps) result }
{
    let mut here = cursors;
    loop {
        match take_least(old, old_runs, new, new_runs, here)? {
            Least::Old(pair, behind) => return Ok(Found::Removed(pair, behind)),
            Least::New(pair, behind) => return Ok(Found::Added(pair, behind)),
            Least::Both(before, after, behind) => {
                if before.1 != after.1 {
                    return Ok(Found::Changed(before, after.1, behind));
                }
                here = behind;
            }
            Least::Neither => return Ok(Found::Nothing),
        }
    }
}

/// Takes what the two have of the least key.
fn take_least<'a>(
    old: &'a [u8],
    old_runs: &[Run],
    new: &'a [u8],
    new_runs: &[Run],
    at: Cursors,
) -> Result<Least<'a>, WrongIndex>
    ensures takes { (maps : Maps) → AreMaps maps →
        AreAt old.now old_runs.now new.now new_runs.now at maps →
        Answers (TakesAs old.now old_runs.now new.now new_runs.now maps) result }
    ensures nearer { IfOk result (IsNearer old_runs.now new_runs.now at) }
{
    let before = next_pair(old, old_runs, at.before)?;
    let after = next_pair(new, new_runs, at.after)?;
    match (before, after) {
        (Some((pair, behind)), None) => Ok(Least::Old(
            pair,
            Cursors {
                before: behind,
                ..at
            },
        )),
        (None, Some((pair, behind))) => Ok(Least::New(
            pair,
            Cursors {
                after: behind,
                ..at
            },
        )),
        (Some((one, one_behind)), Some((other, other_behind))) => {
            match key_order(one.0, other.0) {
                Ordering::Less => Ok(Least::Old(
                    one,
                    Cursors {
                        before: one_behind,
                        ..at
                    },
                )),
                Ordering::Greater => Ok(Least::New(
                    other,
                    Cursors {
                        after: other_behind,
                        ..at
                    },
                )),
                Ordering::Equal => Ok(Least::Both(
                    one,
                    other,
                    Cursors {
                        before: one_behind,
                        after: other_behind,
                    },
                )),
            }
        }
        (None, None) => Ok(Least::Neither),
    }
}
