//! Proofs of what a chunk file has in a range of keys.
ghost use Rattle.std.specs.Prelude.{◌≡◌, ◌≢◌, ◌⊎◌, ◌<◌, ◌≤◌, length, take, drop};
ghost use Rattle.prolly_entry.specs.Cut.{sha512_cut};
ghost use Rattle.prolly_entry.specs.Version.{version_byte};
ghost use Rattle.prolly_tree.specs.File.{root_reference};
ghost use Rattle.prolly_look_up.specs.Content.{Content, IsFileOf};
ghost use Rattle.prolly_c.specs.Proofs.{TellsFault};
ghost use Rattle.prolly_root.specs.ChunkFile.{ChunkFile, IsCut};
ghost use Rattle.prolly_c.specs.RangeProofs.{HasRangeProof, ProvesRange, TellsFirstOfRange};
ghost use Rattle.prolly_c.specs.RangeProofs.{range_of};

use crate::prover::range_proof_in;
use crate::put::put_bytes;
use crate::range::bound;
use crate::status::{DONE, NO_ROOM, USAGE, root_status, tell};
use prolly_entry::{Ref, Version};
use prolly_range::KeySet;
use std::alloc::Global;

/// The proof of what the tree of version 1 or 2 with this root has in a range of keys, out of its
/// chunk file: of those that are not less than `from`, and, where the range is bounded, less than
/// `to`. Else as [`prolly_prove`](crate::prolly_prove).
///
/// Takes memory for the proof, and for one chunk at a time.
#[unsafe(no_mangle)]
pub extern "C" fn prolly_prove_range(
    alloc: Global,
    bytes: &[u8],
    version: u8,
    root: &[u8; 20],
    from: &[u8],
    to: &[u8],
    bounded: bool,
    out: &mut [u8],
    count: &mut usize,
    chunk: &mut u64,
) -> u32
    ensures proves { result ≡ 0 → ProvesRange version root.now
        (range_of from.now to.now bounded) (take count.new out.new) }
    ensures within { result ≡ 0 → count.new ≤ length out.new }
    ensures behind { result ≡ 0 → drop count.new out.new ≡ drop count.new out.old }
    ensures room { result ≡ 3 → (length out.new < count.new) ×
        HasRangeProof version root.now
        (range_of from.now to.now bounded) count.new }
    ensures lawful { (content : Content) → IsFileOf bytes.now content →
        version_byte content.version ≡ version →
        root.now ≡ root_reference (sha512_cut content.bits) content.version content.pairs →
        (result ≡ 0) ⊎ ((result ≡ 2) ⊎ (result ≡ 3)) }
    ensures refused { (result ≡ 0) ⊎ ((result ≡ 2) ⊎ ((result ≡ 3) ⊎ ((result ≡ 6) ⊎
        TellsFault result chunk.new))) }
    ensures first { (file : ChunkFile) → file.bytes ≡ bytes.now → IsCut file → 6 < result →
        TellsFirstOfRange version file root.now (range_of from.now to.now bounded) result
        chunk.new }
    ensures stays { result ≢ 0 → out.new ≡ out.old }
    ensures uncounted { result ≢ 0 → result ≢ 3 → count.new ≡ count.old }
    ensures unnamed { result ≤ 6 → chunk.new ≡ chunk.old }
    ensures usage { result ≡ 6 → (version ≡ 1 → ⊥) × (version ≡ 2 → ⊥) }
    ensures version { (version ≡ 1) ⊎ ((version ≡ 2) ⊎ (result ≡ 6)) }
{
    let Some(format) = Version::of(version) else {
        return USAGE;
    };
    let to = bound(to, bounded);
    match range_proof_in(
        alloc,
        bytes,
        format,
        &Ref(*root),
        KeySet::Range { from, to },
    ) {
        Ok(proof) => {
            *count = proof.len();
            if proof.len() > out.len() {
                return NO_ROOM;
            }
            put_bytes(&proof, out, 0);
            DONE
        }
        Err(fault) => tell(root_status(fault), chunk),
    }
}
