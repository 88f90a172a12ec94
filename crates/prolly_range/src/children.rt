//! The children of a node in which keys are sought.
ghost use Rattle.std.specs.Prelude.{◌≡◌, ◌++◌, [], map, Some, OnOk, IfOk, option_map};
ghost use Rattle.prolly_look_up.specs.Entries.{IsNode, children_in};
ghost use Rattle.prolly_look_up.specs.Sought.{value_of};
ghost use Rattle.prolly_range.specs.KeySet.{met_first, met_in, set_of};
ghost use Rattle.prolly_range.specs.Children.{met_of, seen_met};

use crate::key_set::KeySet;
use prolly_entry::{Child, Ref, Version};
use prolly_look_up::split_first_child;
use std::alloc::{AllocError, Global};
use std::collections::VecDeque;

/// A child of a node in which keys are sought.
#[derive(Clone, Copy)]
pub(crate) struct ChildMet<'a> {
    /// Its number among the children, counted from 0.
    pub(crate) number: u64,
    pub(crate) reference: Ref,
    /// The keys that are sought below it.
    pub(crate) set: KeySet<'a>,
}

/// The children of these entries of a node in which keys of the set are sought, from left to right.
pub(crate) fn children_met<'a>(
    alloc: Global,
    version: Version,
    mut entries: &[u8],
    set: KeySet<'a>,
) -> Result<VecDeque<ChildMet<'a>>, AllocError>
    requires { IsNode version entries.now [] }
    ensures { IfOk result (λ met. map met_of met.items ≡ map seen_met
        (met_in (λ c. c.key) 0 (Some (set_of set.entry)) (children_in version entries.now))) }
{
    let mut met = VecDeque::new(alloc);
    let mut number = 0;
    let mut left = Some(set);
    while let Some(sought) = left {
        let Some((child, rest)) = split_first_child(version, entries) else {
            return Ok(met);
        };
        add_child(&mut met, number, &child, sought.below(child.key))?;
        left = sought.behind(child.key);
        entries = rest;
        number += 1;
    }
    Ok(met)
}

/// Adds the child of this number, where keys are sought in it.
fn add_child<'a>(
    met: &mut VecDeque<ChildMet<'a>>,
    number: u64,
    child: &Child<'_>,
    set: Option<KeySet<'a>>,
) -> Result<(), AllocError>
    ensures { OnOk result (map met_of met.new.items ≡ map met_of met.old.items ++
        map seen_met (met_first number (value_of child.now) (option_map set_of set.entry) [])) }
{
    if let Some(set) = set {
        met.push_back(ChildMet {
            number,
            reference: child.reference,
            set,
        })?;
    }
    Ok(())
}
