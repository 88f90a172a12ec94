//! Laws of walks over one tree or two. They are the contracts of functions that do nothing: to call
//! one is to know its laws, and to prove the crate is to prove them.
ghost use Rattle.prolly_root_diff.specs.FileWalks.{ReadChunksStand, WalkFaultsAreOne};
ghost use Rattle.prolly_root_diff.specs.FirstFault.{LawfulFilesAreWalked, LeafFaultsAreOne};
ghost use Rattle.prolly_root_diff.specs.Leaves.{AllLeavesAreRight, FirstLeavesAreRight};
ghost use Rattle.prolly_root_diff.specs.Leaves.{LeavesBeginAtRoot, LeavesOpenFirst};
ghost use Rattle.prolly_root_diff.specs.Left.{BeginsAtRoot, OpensFirst, PassesEqual};
ghost use Rattle.prolly_root_diff.specs.Notes.{NotesAreRight};
ghost use Rattle.prolly_root_diff.specs.Walks.{WalksAreRight};

use prolly_look_up::laws::tops_are_read;

/// What is left of a tree stays the same where a chunk is read in the place of a subtree, and
/// subtrees with equal references are passed by in both. So what a walk gives on its way is the
/// difference of two maps, or how it begins, and what it notes tells what is missing. Or else a chunk
/// of the trees has the reference of a different chunk, which is read on the way or is one of the
/// trees, too. What is read on the way can be read, and stands in the chunk file in which the walk
/// comes by it.
pub fn walks_are_right()
    ensures begins { BeginsAtRoot }
    ensures opens { OpensFirst }
    ensures passes { PassesEqual }
    ensures walks { WalksAreRight }
    ensures stand { ReadChunksStand }
    ensures notes { NotesAreRight }
{
    tops_are_read();
}

/// No walk over the tree of a lawful content has a fault in its chunk file. One fault is the first
/// for a walk over the leaves of a file of any bytes, and one for a walk over two files. There is none
/// where the walk comes to its end.
pub fn walks_tell_one_fault()
    ensures lawful { LawfulFilesAreWalked }
    ensures leaves { LeafFaultsAreOne }
    ensures walks { WalkFaultsAreOne }
{
    tops_are_read();
}

/// The leaves that are left of a tree stay the same where a node is read in the place of a subtree,
/// and begin with a leaf that is read there. So the leaves that a walk reads are the first leaves of a
/// map, and all of them where nothing is due. Or else a chunk of the tree has the reference of a
/// different chunk, which was read or is one of the tree, too.
pub fn leaves_are_right()
    ensures begins { LeavesBeginAtRoot }
    ensures opens { LeavesOpenFirst }
    ensures first { FirstLeavesAreRight }
    ensures all { AllLeavesAreRight }
{
    tops_are_read();
}
