//! The root that a chunk file names.
ghost use Rattle.std.specs.Prelude.{◌≡◌, ◌≤◌, true, length};
ghost use Rattle.prolly_look_up.specs.Content.{Content};
ghost use Rattle.prolly_root.specs.NamedRoot.{NamesRootOf, TellsEnd, TellsFailedRead, TellsRoot};
ghost use Rattle.prolly_root.specs.Walk.{HoldsFile, StaysSame};

use crate::file::named_root_fault::NamedRootFault;
use prolly_entry::Ref;
use prolly_io::{Device, END_SIZE, HEADER_SIZE, read_end, read_header};

/// The least size of a file that has room for a header and an end record.
const LEAST_SIZE: u64 = (HEADER_SIZE + END_SIZE) as u64;

/// The root that the end record of a chunk file names. Nobody has checked that the file has this
/// root, nor that it is a chunk file: no more than its header and its end record is looked at.
///
/// Takes three calls of the device, and no memory, whatever the size of the file.
pub fn named_root<D: Device>(device: &mut D) -> Result<Ref, NamedRootFault>
    ensures same { StaysSame (D.seen device.old) (D.seen device.new) }
    ensures read { TellsFailedRead (D.seen device.old).failures (D.seen device.new).failures result }
    ensures tells { (D.seen device.old).is_honest ≡ true →
        TellsEnd (D.seen device.old).bytes result }

    // Of a lawful file it is the root.
    ensures lawful { (content : Content) → HoldsFile (D.seen device.old) content →
        NamesRootOf content result }
{
    let mut start = [0; HEADER_SIZE];
    let Ok(count) = device.read_at(0, &mut start) else {
        return Err(NamedRootFault::Read);
    };
    read_header(&start[..count])?;
    let Ok(size) = device.len() else {
        return Err(NamedRootFault::Read);
    };
    if size < LEAST_SIZE {
        return Err(NamedRootFault::Truncated);
    }
    root_at_end(device, size)
}

/// The root that the last bytes of a file of this size name, which are to be an end record.
fn root_at_end<D: Device>(device: &mut D, size: u64) -> Result<Ref, NamedRootFault>
    requires room { 35 ≤ size }
    ensures same { StaysSame (D.seen device.old) (D.seen device.new) }
    ensures read { TellsFailedRead (D.seen device.old).failures (D.seen device.new).failures result }
    ensures tells { (D.seen device.old).is_honest ≡ true →
        size ≡ length (D.seen device.old).bytes → TellsRoot (D.seen device.old).bytes result }
{
    let mut end = [0; END_SIZE];
    let Ok(count) = device.read_at(size - END_SIZE as u64, &mut end) else {
        return Err(NamedRootFault::Read);
    };
    read_end(&end[..count]).ok_or(NamedRootFault::BadEnd)
}
