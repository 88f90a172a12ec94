//! Laws of look-ups. Each is the contract of a function that does nothing: to call it is to know the
//! law, and to prove the crate is to prove it.
ghost use Rattle.prolly_entry.specs.declared.version.Version.{Version};
ghost use Rattle.prolly_look_up.specs.MapTree.{RootIsTree, ChildIsTree, TopIsRead};
ghost use Rattle.prolly_look_up.specs.Entries.{NoLeaf, NoNode};
ghost use Rattle.prolly_look_up.specs.ScanWay.{ScansAreRight, ScansGoOn};
ghost use Rattle.prolly_look_up.specs.Way.{CountWaysAreRight, WaysAreRight};

/// Bytes that no entry begins make a chunk bad.
pub fn rests_make_chunks_bad()
    ensures leaves { NoLeaf }
    ensures nodes { (version : Version) → NoNode version }
{}

/// The chunks of a map are the tops of trees, and each of them can be read. So no reader refuses a
/// chunk of a map.
pub fn tops_are_read()
    ensures root { RootIsTree }
    ensures child { (version : Version) → ChildIsTree version }
    ensures read { (version : Version) → TopIsRead version }
{}

/// Whoever knows the root of a map knows by the way of a look-up what the map has at the key, from
/// the key on, or at a number, or has two different chunks with one reference.
pub fn ways_are_right()
    ensures found { WaysAreRight }
    ensures scanned { ScansAreRight }
    ensures onward { ScansGoOn }
    ensures counted { CountWaysAreRight }
{}
