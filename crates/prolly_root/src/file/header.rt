//! What the header of a chunk file says.
ghost use Rattle.std.specs.Prelude.{◌≡◌, true};
ghost use Rattle.prolly_look_up.specs.Content.{Content};
ghost use Rattle.prolly_root.specs.NamedRoot.{SaysHeaderOf, TellsHeader};
ghost use Rattle.prolly_root.specs.RootFault.{IsOrFails, OnlyRead};
ghost use Rattle.prolly_root.specs.Walk.{HasRead, HoldsFile};

use crate::root_fault::RootFault;
use prolly_io::{Device, HEADER_SIZE, Header, HeaderFault, read_header};

/// What the header of a chunk file says: the version of its chunks, and the bits by which its
/// entries were cut. Nobody has checked that it says the truth: a root does not tell the bits of
/// its tree.
///
/// Takes one call of the device, and no memory.
pub fn named_header<D: Device>(device: &mut D) -> Result<Header, RootFault>
    ensures read { HasRead (D.seen device.old) (D.seen device.new) result }
    ensures tells { (D.seen device.old).is_honest ≡ true →
        TellsHeader (D.seen device.old).bytes result }

    // Of a lawful file it is the truth.
    ensures lawful { (content : Content) → HoldsFile (D.seen device.old) content →
        IsOrFails (SaysHeaderOf content) OnlyRead result }
{
    let mut start = [0; HEADER_SIZE];
    let count = device.read_at(0, &mut start)?;
    match read_header(&start[..count]) {
        Ok(header) => Ok(header),
        Err(HeaderFault::Truncated) => Err(RootFault::Truncated),
        Err(HeaderFault::BadByte) => Err(RootFault::Header),
    }
}
