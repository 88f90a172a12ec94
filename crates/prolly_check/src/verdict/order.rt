//! The order of the keys of a file.
ghost use Rattle.std.specs.Prelude.{◌≡◌, ℕ, false, map, None, Some, OnOk, OnErr, IfOk, IfErr};
ghost use Rattle.std.specs.Option.{option_copied};
ghost use Rattle.prolly_entry.specs.declared.version.Version.{Version as VersionValue};
ghost use Rattle.prolly_check.specs.Digests.{AreDigests, IsDigest};
ghost use Rattle.prolly_look_up.specs.HeldPairs.{pairs_held};
ghost use Rattle.prolly_check.specs.FirstFault.{order_fault, rises_behind, RisesTo};

use crate::chunks::Chunks;
use crate::verdict::digests::ChunkDigest;
use crate::verdict::fault::CheckFault;
use prolly_entry::{Version, key_rises};
use prolly_look_up::pairs_of;

/// A key is not greater than the one before it.
#[derive(Clone, Copy)]
pub(crate) struct Falls;

/// Tests that the keys of all chunks rise. Reads the first and the last pair of each, and takes no
/// memory: it keeps where the last key lies.
pub(crate) fn test_order(
    version: Version,
    chunks: &Chunks,
    digests: &[ChunkDigest],
) -> Result<(), CheckFault>
    requires { (bits : ℕ) × AreDigests version bits chunks.now digests.now }
    ensures ok { OnOk result (order_fault None 0 (map pairs_held chunks.now) ≡ None) }
    ensures err { IfErr result (λ fault.
        order_fault None 0 (map pairs_held chunks.now) ≡ Some fault) }
{
    let mut last = None;
    for number in 0..chunks.len() {
        last = match last_in(last, version, chunks.chunk(number), digests[number]) {
            Ok(key) => key,
            Err(Falls) => return Err(CheckFault::KeysOutOfOrder { chunk: number }),
        };
    }
    Ok(())
}

/// The last key up to the end of a chunk, where its keys rise behind the last one before it. Reads
/// its first and its last pair.
pub(crate) fn last_in<'a>(
    last: Option<&'a [u8]>,
    version: Version,
    chunk: &'a [u8],
    digest: ChunkDigest,
) -> Result<Option<&'a [u8]>, Falls>
    requires { (bits : ℕ) × IsDigest version bits chunk.now digest }
    ensures ok { IfOk result (λ new.
        RisesTo (option_copied last.entry) (pairs_held chunk.now) (option_copied new)) }
    ensures err { OnErr result (rises_behind (option_copied last.entry) (pairs_held chunk.now) ≡ false) }
{
    let Some((first, _)) = pairs_of(version, chunk).first() else {
        return Ok(last);
    };
    if !digest.pairs.rises {
        return Err(Falls);
    }
    if !key_rises(last, first) {
        return Err(Falls);
    }
    Ok(digest.pairs.last_key(chunk))
}
