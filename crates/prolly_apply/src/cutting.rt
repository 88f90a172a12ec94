//! How the leaves of an old tree are cut.
ghost use Rattle.std.specs.Prelude.{◌≡◌, true, false};
ghost use Rattle.prolly_tree.specs.Split.{last_passes};
ghost use Rattle.prolly_tree.specs.Tree.{pair_is_boundary};
ghost use Rattle.prolly_apply.specs.Cutting.{Admits, NoneInside};

use crate::old_leaf::OldLeaf;
use prolly_entry::Cut;
use prolly_look_up::Pairs;

/// Of so many leaves each pair is tested. Where the tree has more bits than is said, a leaf of it
/// has a boundary inside: one in two leaves, where it is one bit more.
const TESTED_LEAVES: u32 = 40;

/// What was seen so far of how a tree is cut.
#[derive(Drop)]
pub(crate) struct Cutting {
    /// How many leaves had each of their pairs tested.
    tested: u32,
    /// Whether the last leaf ended with a boundary, or there was none.
    ended: bool,
}

impl Cutting {
    /// Before the first leaf.
    pub(crate) fn new() -> Cutting
        ensures { (result.tested ≡ 0) × (result.ended ≡ true) }
    {
        Cutting {
            tested: 0,
            ended: true,
        }
    }

    /// Whether the last leaf ended with a boundary.
    pub(crate) fn has_ended(&self) -> bool
        ensures { result ≡ self.now.ended }
    {
        self.ended
    }

    /// Whether the next leaf is cut as it should be, as far as is tested: the leaf before it ended
    /// with a boundary and, of the first leaves, this one has none before its last pair.
    pub(crate) fn admits<C: Cut>(&mut self, cut: &C, leaf: &OldLeaf) -> bool
        ensures { Admits (C.cut cut.now) leaf.now self.old self.new result }
    {
        if !self.ended {
            return false;
        }
        if self.tested < TESTED_LEAVES {
            self.tested += 1;
            if has_boundary_inside(cut, leaf.pairs()) {
                return false;
            }
        }
        self.ended = ends_at_boundary(cut, leaf.pairs());
        true
    }
}

/// Whether a pair before the last one is a boundary. Takes one hash of each pair up to that.
fn has_boundary_inside<C: Cut>(cut: &C, mut leaf: Pairs<'_>) -> bool
    ensures yes { result ≡ true → NoneInside (C.cut cut.now) leaf.entry → ⊥ }
    ensures no { result ≡ false → NoneInside (C.cut cut.now) leaf.entry }
{
    while let Some(spelling) = leaf.next_spelling() {
        if leaf.is_empty() {
            return false;
        }
        if cut.is_boundary(spelling) {
            return true;
        }
    }
    false
}

/// Whether the last pair is a boundary. Takes one hash, and goes over the others.
fn ends_at_boundary<C: Cut>(cut: &C, mut leaf: Pairs<'_>) -> bool
    ensures { result ≡ last_passes (pair_is_boundary (C.cut cut.now)) leaf.entry }
{
    while let Some(spelling) = leaf.next_spelling() {
        if leaf.is_empty() {
            return cut.is_boundary(spelling);
        }
    }
    false
}
