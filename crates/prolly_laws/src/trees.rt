//! Laws of trees, and of their chunk files.
ghost use Rattle.std.specs.Prelude.{ℕ, List};
ghost use Rattle.prolly_entry.specs.declared.version.Version.{Version};
ghost use Rattle.prolly_entry.specs.Cut.{Cut};
ghost use Rattle.prolly_tree.specs.Leaves.{KeepsLeaves};
ghost use Rattle.prolly_tree.specs.Tree.{GrowsByNodes, KeepsPairs, FewLevels};
ghost use Rattle.prolly_tree.specs.Chunk.{FewChunks, ChunksDiffer};
ghost use Rattle.prolly_tree.specs.File.{BegunIsPrefix, FileDecidesMap, RootsTellMaps};

/// Trees grow level by level, each level having fewer trees than the one below, until one is left.
pub fn trees_grow()
    ensures { (cut : Cut) (version : Version) → GrowsByNodes cut version }
{}

/// The pairs below the tree of a map are the map.
pub fn trees_keep_pairs()
    ensures { (cut : Cut) (version : Version) → KeepsPairs cut version }
{}

/// The leaves below the tree of a map are the map's leaves.
pub fn trees_keep_leaves()
    ensures { (cut : Cut) (version : Version) → KeepsLeaves cut version }
{}

/// The tree of n pairs has at most 3 n + 1 chunks, and that of 2 ^ k pairs at most k + 1 levels.
pub fn trees_are_small()
    ensures chunks { (cut : Cut) (version : Version) → FewChunks cut version }
    ensures levels { (cut : Cut) (version : Version) → FewLevels cut version }
{}

/// The chunks of a map are all different.
pub fn chunks_differ()
    ensures { (cut : Cut) (version : Version) → ChunksDiffer cut version }
{}

/// What a prefix of a map has begun is a prefix of the map's file.
pub fn begun_files_are_prefixes()
    ensures { (cut : Cut) (version : Version) → BegunIsPrefix cut version }
{}

/// A file decides its version, its bits and its map.
pub fn files_decide_their_map()
    ensures { FileDecidesMap }
{}

/// Different maps with one root show two different chunks with one reference.
pub fn roots_tell_maps()
    ensures { (version : Version) → RootsTellMaps version }
{}
