//! Leaves of a chunk file that are read before they are asked for.
ghost use Rattle.std.specs.Prelude.{◌≡◌, true, IfOk, IfErr, IfSome};
ghost use Rattle.std.specs.List.{AllByRecursion};
ghost use Rattle.prolly_root.specs.ReadAhead.{IsPartOf};
ghost use Rattle.prolly_root.specs.RootFault.{OnlyRead};
ghost use Rattle.prolly_root.specs.Walk.{HasRead};

use crate::file::file_chunks::read_chunk;
use crate::file::walk::{Frame, Walk};
use crate::given_chunk::GivenChunk;
use crate::root_fault::RootFault;
use prolly_entry::Version;
use prolly_io::Device;
use prolly_look_up::{LEAF, ManyThreads};
use std::alloc::Global;
use std::thread::{Threads, for_each_mut};

/// As so many bytes counts what is kept of a leaf beside its chunk.
const KEPT_BYTES: usize = 128;

/// A leaf that was read before it was asked for.
#[derive(Drop)]
pub(crate) struct Fetched {
    pub(crate) frame: Frame,
    pub(crate) chunk: GivenChunk,
}

/// Reads the leaves from this boundary on, as many as find room in so many bytes, up to the first that
/// does not or that can't be had. None is tested. The next one stands last.
pub(crate) fn fetch_leaves<D: Device>(
    alloc: Global,
    device: &mut D,
    walk: Walk,
    bytes: usize,
) -> Result<Vec<Fetched>, RootFault>
    ensures read { HasRead (D.seen device.old) (D.seen device.new) result }
    ensures leaves { (D.seen device.old).is_honest ≡ true → IfOk result (λ leaves.
        AllByRecursion (IsPartOf (D.seen device.old).bytes) leaves.items) }
    ensures fault { IfErr result OnlyRead }
{
    let mut leaves = fetch_in_order(alloc, device, walk, bytes)?;
    leaves.reverse();
    Ok(leaves)
}

/// The same, but that the next one stands first.
fn fetch_in_order<D: Device>(
    alloc: Global,
    device: &mut D,
    mut walk: Walk,
    bytes: usize,
) -> Result<Vec<Fetched>, RootFault>
    ensures read { HasRead (D.seen device.old) (D.seen device.new) result }
    ensures leaves { (D.seen device.old).is_honest ≡ true → IfOk result (λ leaves.
        AllByRecursion (IsPartOf (D.seen device.old).bytes) leaves.items) }
    ensures fault { IfErr result OnlyRead }
{
    let mut leaves = Vec::new(alloc);
    let mut room = bytes;
    while room > KEPT_BYTES {
        room -= KEPT_BYTES;
        match fetch_leaf(alloc, device, &mut walk, room) {
            Ok(Some(leaf)) => {
                room = room.saturating_sub(leaf.chunk.as_bytes().len());
                if leaves.push(leaf).is_err() {
                    return Ok(leaves);
                }
            }
            Err(RootFault::Read) => return Err(RootFault::Read),
            _ => return Ok(leaves),
        }
    }
    Ok(leaves)
}

/// Reads the next leaf from this boundary on, and goes on behind it; none where it has more bytes than
/// there is room for.
fn fetch_leaf<D: Device>(
    alloc: Global,
    device: &mut D,
    walk: &mut Walk,
    room: usize,
) -> Result<Option<Fetched>, RootFault>
    ensures read { HasRead (D.seen device.old) (D.seen device.new) result }
    ensures leaf { (D.seen device.old).is_honest ≡ true →
        IfOk result (λ leaf. IfSome leaf (IsPartOf (D.seen device.old).bytes)) }
{
    let frame = walk.next_of_level(device, LEAF)?;
    if frame.len > room as u64 {
        return Ok(None);
    }
    let chunk = read_chunk(alloc, device, &frame)?;
    Ok(Some(Fetched {
        frame,
        chunk: GivenChunk::new(chunk),
    }))
}

/// Tests each of these leaves, some share of them in each thread. Where a thread can't be had,
/// another does its work.
pub(crate) fn test_leaves<R: Threads + Sync>(
    hasher: &ManyThreads<'_, R>,
    version: Version,
    leaves: &mut [Fetched],
)
    ensures { leaves.new ≡ leaves.old }
{
    let threads = hasher.count_for(size_of(leaves));
    let test = |_number: usize, leaf: &mut Fetched|
        ensures { leaf.exit.now ≡ leaf.entry.now }
    { leaf.chunk.test(version) };
    for_each_mut(hasher.rt, leaves, threads, &test);
}

/// How many bytes the leaves have.
fn size_of(leaves: &[Fetched]) -> usize {
    let mut size: usize = 0;
    for leaf in leaves {
        size = size.saturating_add(leaf.chunk.as_bytes().len());
    }
    size
}
