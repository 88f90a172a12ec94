//! The chunks that are due.
ghost use Rattle.std.specs.Prelude.{◌≡◌, ◌++◌, OnOk, IfOk, map, [], ◌∷◌};
ghost use Rattle.prolly_look_up.specs.Entries.{IsWhole};
ghost use Rattle.prolly_look_up.specs.Kinds.{kind_of};
ghost use Rattle.prolly_look_up.specs.Way.{level_of};
ghost use Rattle.prolly_range.specs.KeySet.{set_of};
ghost use Rattle.prolly_range.specs.Children.{met_of};
ghost use Rattle.prolly_range.specs.Dues.{due_of, seen_due};
ghost use Rattle.prolly_range.specs.SetProof.{due_below};

use crate::children::{ChildMet, children_met};
use crate::key_set::KeySet;
use prolly_entry::{Ref, Version};
use prolly_look_up::LEAF;
use std::alloc::{AllocError, Global};
use std::collections::VecDeque;

/// A chunk that is due.
#[derive(Clone, Copy)]
pub(crate) struct Due<'a> {
    pub(crate) reference: Ref,
    /// The level of the chunk above it; none is above the root.
    pub(crate) above: Option<u8>,
    /// The keys that are sought there.
    pub(crate) set: KeySet<'a>,
}

impl<'a> Due<'a> {
    /// The child of a node of this level.
    pub(crate) fn below(level: u8, child: &ChildMet<'a>) -> Due<'a>
        ensures { due_of result ≡ seen_due level (met_of child.now) }
    {
        Due {
            reference: child.reference,
            above: Some(level),
            set: child.set,
        }
    }
}

/// Puts what is due below a chunk that was tested before the others.
pub(crate) fn put_below<'a>(
    alloc: Global,
    version: Version,
    chunk: &[u8],
    set: KeySet<'a>,
    due: &mut VecDeque<Due<'a>>,
) -> Result<(), AllocError>
    requires { IsWhole version chunk.now }
    ensures { OnOk result (map due_of due.new.items ≡ due_below (level_of chunk.now)
        (set_of set.entry) (kind_of version chunk.now) ++ map due_of due.old.items) }
{
    if chunk[0] == LEAF {
        return Ok(());
    }
    let mut met = children_met(alloc, version, &chunk[1..], set)?;
    // The last one is put first, so that the first one comes to stand before the others.
    while let Some(child) = met.pop_back() {
        due.push_front(Due::below(chunk[0], &child))?;
    }
    Ok(())
}
