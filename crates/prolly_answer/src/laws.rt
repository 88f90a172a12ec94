//! Laws of what is dumped, of what is verified, and of what is found at many keys. Each is the
//! contract of a function that does nothing: to call it is to know the law, and to prove the crate
//! is to prove it.
ghost use Rattle.prolly_answer.specs.Dump.{RecordFilesAreDumped};
ghost use Rattle.prolly_answer.specs.KeyLookUps.{KeysByRootAreRight};
ghost use Rattle.prolly_answer.specs.RootDumps.{DumpsAreRight};
ghost use Rattle.prolly_answer.specs.SetProofs.{RangesAreRight, ShownKeysAreRight};

use prolly_look_up::laws::ways_are_right;
use prolly_range::laws::{keys_are_found, set_proofs_are_right};

/// What `dump` writes as a record file is that of the map.
pub fn record_files_are_dumped()
    ensures { RecordFilesAreDumped }
{}

/// What was dumped to whoever names the root of a map are first pairs of the map, and all of them
/// where the dump is done; or there are two different chunks with one reference.
pub fn dumps_by_root_are_right()
    ensures { DumpsAreRight }
{
    ways_are_right();
}

/// What was found at many keys by whoever names the root of a map is what the map has there; or there
/// are two different chunks with one reference.
pub fn keys_by_root_are_right()
    ensures { KeysByRootAreRight }
{
    ways_are_right();
}

/// What was verified of a range by whoever names the root of a map is what a scan of the map has
/// there: its first pairs, and all of them where the proof was read to its end; or there are two
/// different chunks with one reference.
pub fn ranges_are_right()
    ensures { RangesAreRight }
{
    set_proofs_are_right();
}

/// What was verified of a list of keys by whoever names the root of a map is what the map has at these
/// keys, a value or nothing: at those that are past, and at all of them where the proof was read to its
/// end; or there are two different chunks with one reference.
pub fn shown_keys_are_right()
    ensures { ShownKeysAreRight }
{
    set_proofs_are_right();
    keys_are_found();
}
