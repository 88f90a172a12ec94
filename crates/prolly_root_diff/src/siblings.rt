//! The subtrees that are due below one node.
ghost use Rattle.std.specs.Prelude.{◌≡◌, ◌<◌, ◌⊎◌, [], ◌∷◌, List, map, true, false, drop, None};
ghost use Rattle.std.specs.Prelude.{IfOk, MatchOption};
ghost use Rattle.prolly_look_up.specs.Entries.{IsNode, IsWhole, children_in};
ghost use Rattle.prolly_look_up.specs.Way.{FallsTo, IsNamed, level_of};
ghost use Rattle.prolly_root.specs.ChunkFile.{ChunkFile};
ghost use Rattle.prolly_root.specs.ChunkSource.{HasAsked};
ghost use Rattle.prolly_root.specs.RootFault.{IsOrFails, MayFail};
ghost use Rattle.prolly_root_diff.specs.FirstFault.{DueAt, IsFaultAt};
ghost use Rattle.prolly_root_diff.specs.Places.{FindsFirst, IsThere, SiblingsStand};
ghost use Rattle.prolly_root_diff.specs.Sides.{AreChildrenOf, HaveSame, IsBehindFirst, bound_of};
ghost use Rattle.prolly_root_diff.specs.Sides.{level_above};

use prolly_entry::{Ref, Version};
use prolly_look_up::split_first_child;
use prolly_root::{ChunkSource, RootFault, tested_chunk};
use std::alloc::{AllocError, Global};
use std::collections::VecDeque;

/// A level is below this number.
const LEVELS: u16 = 256;

/// The subtrees that are due below one node; or the whole tree, where nothing of it was read yet.
#[derive(Drop)]
pub(crate) struct Siblings<T> {
    /// The reference of the next one.
    pub(crate) next: Ref,
    /// The references of those behind it.
    pub(crate) behind: VecDeque<Ref>,
    /// The node; none stands above the root.
    pub(crate) parent: Option<Parent<T>>,
}

/// A node of which children are due.
#[derive(Clone, Copy)]
pub(crate) struct Parent<T> {
    /// Where it stands.
    pub(crate) place: T,
    pub(crate) level: u8,
    /// How many children it has.
    pub(crate) count: usize,
}

impl<T: Copy + Drop> Siblings<T> {
    /// The whole tree with this root.
    pub(crate) fn of_root(alloc: Global, root: &Ref) -> Siblings<T>
        ensures next { result.next ≡ root.now }
        ensures alone { result.behind.items ≡ [] }
        ensures top { result.parent ≡ None }
    {
        Siblings {
            next: *root,
            behind: VecDeque::new(alloc),
            parent: None,
        }
    }

    /// The children of the node with these bytes, which stands there; none where it has none.
    pub(crate) fn below(
        alloc: Global,
        version: Version,
        node: &[u8],
        place: T,
    ) -> Result<Option<Siblings<T>>, AllocError>
        requires whole { IsWhole version node.now }
        requires high { 0 < level_of node.now }
        ensures { IfOk result (λ siblings. MatchOption siblings
            (children_in version (drop 1 node.now) ≡ [])
            (AreChildrenOf version node.now place)) }
    {
        let mut behind = references_in(alloc, version, &node[1..])?;
        let count = behind.len();
        let Some(next) = behind.pop_front() else {
            return Ok(None);
        };
        let parent = Parent {
            place,
            level: node[0],
            count,
        };
        Ok(Some(Siblings {
            next,
            behind,
            parent: Some(parent),
        }))
    }

    /// The level of the node above.
    pub(crate) fn above(&self) -> Option<u8>
        ensures { result ≡ level_above self.now }
    {
        match &self.parent {
            None => None,
            Some(parent) => Some(parent.level),
        }
    }

    /// A number that the level of each of them is below.
    pub(crate) fn bound(&self) -> u16
        ensures { result ≡ bound_of self.now.parent }
    {
        match &self.parent {
            None => LEVELS,
            Some(parent) => u16::from(parent.level),
        }
    }

    /// Goes on behind the next one, and answers whether there is one.
    pub(crate) fn pass(&mut self) -> bool
        ensures more { result ≡ true → IsBehindFirst self.old self.new }
        ensures none { result ≡ false → self.old.behind.items ≡ [] }
    {
        match self.behind.pop_front() {
            Some(next) => {
                self.next = next;
                true
            }
            None => false,
        }
    }

    /// Finds the next one.
    fn find<S: ChunkSource<Place = T>>(
        &mut self,
        source: &mut S,
        version: Version,
    ) -> Result<T, RootFault>
        ensures same { HaveSame self.old self.new }
        ensures stays { (file : ChunkFile) (due : List DueAt) → S.goes_over source.old file →
            SiblingsStand S.stands file self.old due → SiblingsStand S.stands file self.new due }
        ensures finds { (file : ChunkFile) (first : DueAt) (others : List DueAt) →
            S.goes_over source.old file → SiblingsStand S.stands file self.old (first ∷ others) →
            FindsFirst S.stands version file first result }
        ensures asked { HasAsked S.goes_over S.failures source.old source.new result }
    {
        match &mut self.parent {
            None => source.root(version),
            Some(parent) => {
                let left = self.behind.len() as u64;
                let number = (parent.count as u64).saturating_sub(left).saturating_sub(1);
                source.child(&mut parent.place, parent.level.saturating_sub(1), number)
            }
        }
    }

    /// Reads the chunk of the next one. Gives its place, too.
    pub(crate) fn read<S: ChunkSource<Place = T>>(
        &mut self,
        alloc: Global,
        source: &mut S,
        version: Version,
    ) -> Result<(Vec<u8>, T), RootFault>
        ensures named { IfOk result (λ read. IsNamed version self.old.next.0 read.0.items) }
        ensures falls { IfOk result (λ read. FallsTo (level_above self.old) read.0.items) }
        ensures same { HaveSame self.old self.new }
        ensures stays { (file : ChunkFile) (due : List DueAt) → S.goes_over source.old file →
            SiblingsStand S.stands file self.old due → SiblingsStand S.stands file self.new due }
        ensures tells { (file : ChunkFile) (first : DueAt) (others : List DueAt) →
            S.goes_over source.old file → SiblingsStand S.stands file self.old (first ∷ others) →
            IsOrFails (λ read. IsThere S.stands version file first read.0.items read.1)
            (λ fault. MayFail fault ⊎ IsFaultAt version file first fault) result }
        ensures asked { HasAsked S.goes_over S.failures source.old source.new result }
    {
        let place = self.find(source, version)?;
        let above = self.above();
        let chunk = tested_chunk(alloc, source, version, &self.next, above, &place)?;
        Ok((chunk, place))
    }
}

/// The references of the children of these entries of a node.
fn references_in(
    alloc: Global,
    version: Version,
    mut entries: &[u8],
) -> Result<VecDeque<Ref>, AllocError>
    requires { IsNode version entries.now [] }
    ensures { IfOk result (λ references. map (λ r. r.0) references.items ≡
        map (λ c. c.reference) (children_in version entries.now)) }
{
    let mut references = VecDeque::new(alloc);
    while let Some((child, rest)) = split_first_child(version, entries) {
        references.push_back(child.reference)?;
        entries = rest;
    }
    Ok(references)
}
