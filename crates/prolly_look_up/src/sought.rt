//! What a look-up seeks, and which child of a node it goes on in.
ghost use Rattle.std.specs.Prelude.{◌≡◌, ◌<◌, ◌∷◌, [], List, map, drop, Some, None, IfSome, IfNone};
ghost use Rattle.std.specs.Prelude.{MatchOption};
ghost use Rattle.prolly_entry.specs.Keys.{Rising};
ghost use Rattle.prolly_look_up.specs.Sought.{value_of, IsChildSought, IsMark, child_sought};
ghost use Rattle.prolly_look_up.specs.Sought.{sought_of};
ghost use Rattle.prolly_look_up.specs.Entries.{Child as ChildValue, IsNode, children_in};

use crate::entries::split_first_child;
use prolly_entry::{Child, Ref, Version, key_order};

/// What a look-up seeks.
#[derive(Clone, Copy)]
pub enum Sought<'a> {
    /// A key.
    Key(&'a [u8]),
    /// The pair of this number, counted from 0 in the order of keys.
    Number(u64),
}

/// Where a look-up stands between the entries of a node. A look-up of a greater key can begin there,
/// and need not read the children before it again.
#[derive(Clone, Copy)]
pub struct Mark {
    /// How many children stand before it.
    number: u64,
    /// Where in the chunk the entry of the next one begins.
    offset: usize,
}

impl Mark {
    ghost use Rattle.std.specs.Prelude.{ℕ, length};
    ghost use Rattle.prolly_entry.specs.declared.version.Version.{Version};

    /// The one before all entries.
    pub fn first() -> Mark
        ensures first { (version : Version) (chunk : List ℕ) → 0 < length chunk →
            IsMark version chunk result }
        ensures behind { result.offset ≡ 1 }
    {
        Mark {
            number: 0,
            offset: 1,
        }
    }
}

/// The child of a node that a look-up goes on in, as [`step_of`](crate::step_of) finds it.
#[derive(Clone, Copy)]
pub struct ChildSought<'a> {
    /// Its number among the children, counted from 0.
    pub number: u64,
    /// Its reference.
    pub reference: Ref,
    /// What is sought below it.
    pub sought: Sought<'a>,
    /// The mark before the last child that was passed over; where none was, before the first that was
    /// read.
    pub passed: Mark,
}

/// The first of the children of a node below which is what is sought, or none. Where the child
/// behind the mark is below the key that is sought, it reads on from there.
pub(crate) fn child_sought<'a>(
    version: Version,
    chunk: &[u8],
    mark: Mark,
    mut sought: Sought<'a>,
) -> Option<ChildSought<'a>>
    requires rising { Rising (map (λ c. c.key) (children_in version (drop 1 chunk.now))) }
    requires node { IsNode version (drop 1 chunk.now) [] }
    requires mark { IsMark version chunk.now mark }
    ensures some { IfSome result
        (IsChildSought (sought_of sought.entry) (children_in version (drop 1 chunk.now))) }
    ensures none { IfNone result
        (child_sought (sought_of sought.entry) (children_in version (drop 1 chunk.now)) ≡ None) }
    ensures passed { IfSome result (λ child. IsMark version chunk.now child.passed) }
{
    let mut here = begin(version, chunk, mark, sought);
    let mut passed = here;
    while let Some((child, behind_it)) = next_child(version, chunk, here) {
        let Some(next) = behind(sought, &child) else {
            return Some(ChildSought {
                number: here.number,
                reference: child.reference,
                sought,
                passed,
            });
        };
        sought = next;
        passed = here;
        here = behind_it;
    }
    None
}

/// From where on the children are read: from the mark, where the child behind it is below the key
/// that is sought, and else from the first on.
fn begin(version: Version, chunk: &[u8], mark: Mark, sought: Sought<'_>) -> Mark
    requires rising { Rising (map (λ c. c.key) (children_in version (drop 1 chunk.now))) }
    requires node { IsNode version (drop 1 chunk.now) [] }
    requires mark { IsMark version chunk.now mark }
    ensures mark { IsMark version chunk.now result }
    ensures same { child_sought (sought_of sought.entry) (children_in version (drop 1 chunk.now)) ≡
        child_sought (sought_of sought.entry)
        (children_in version (drop result.offset chunk.now)) }
{
    let Sought::Key(key) = sought else {
        return Mark::first();
    };
    match next_child(version, chunk, mark) {
        Some((child, _)) if key_order(child.key, key).is_lt() => mark,
        _ => Mark::first(),
    }
}

/// The child behind the mark, and the mark behind that child.
fn next_child(version: Version, chunk: &[u8], mark: Mark) -> Option<(Child<'_>, Mark)>
    requires node { IsNode version (drop 1 chunk.now) [] }
    requires mark { IsMark version chunk.now mark }
    ensures next { MatchOption result (children_in version (drop mark.offset chunk.now) ≡ []) (λ r.
        children_in version (drop mark.offset chunk.now) ≡
        value_of r.0 ∷ children_in version (drop r.1.offset chunk.now)) }
    ensures mark { IfSome result (λ r. IsMark version chunk.now r.1) }
    ensures further { IfSome result (λ r. mark.offset < r.1.offset) }
{
    let (child, rest) = split_first_child(version, &chunk[mark.offset..])?;
    let behind_it = Mark {
        number: mark.number + 1,
        offset: chunk.len() - rest.len(),
    };
    Some((child, behind_it))
}

/// What is sought behind the child, where it is not below it.
fn behind<'a>(sought: Sought<'a>, child: &Child<'_>) -> Option<Sought<'a>>
    ensures here { IfNone result ((others : List ChildValue) →
        child_sought (sought_of sought.entry) (value_of child.now ∷ others) ≡
        Some (value_of child.now, sought_of sought.entry)) }
    ensures past { IfSome result (λ next. (others : List ChildValue) →
        child_sought (sought_of sought.entry) (value_of child.now ∷ others) ≡
        child_sought (sought_of next) others) }
{
    match sought {
        Sought::Key(key) => {
            if key_order(child.key, key).is_lt() {
                return Some(sought);
            }
        }
        Sought::Number(n) => {
            if n >= child.count {
                return Some(Sought::Number(n - child.count));
            }
        }
    }
    None
}
