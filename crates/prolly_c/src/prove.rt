//! Proofs of what a chunk file has at a key.
ghost use Rattle.std.specs.Prelude.{◌≡◌, ◌≢◌, ◌⊎◌, ◌<◌, ◌≤◌, length, take, drop};
ghost use Rattle.prolly_entry.specs.Cut.{sha512_cut};
ghost use Rattle.prolly_entry.specs.Version.{version_byte};
ghost use Rattle.prolly_tree.specs.File.{root_reference};
ghost use Rattle.prolly_look_up.specs.Content.{Content, IsFileOf};
ghost use Rattle.prolly_root.specs.ChunkFile.{ChunkFile, IsCut};
ghost use Rattle.prolly_c.specs.Proofs.{HasProof, ProvesSome, TellsFault, TellsFirstFault};

use crate::prover::proof_in;
use crate::put::put_bytes;
use crate::status::{DONE, NO_ROOM, USAGE, root_status, tell};
use prolly_entry::{Ref, Version};
use std::alloc::Global;

/// The proof of what the tree of version 1 or 2 with this root has at a key, out of its chunk file.
/// It is written to the start of `out`, and `count` is its length. Nothing of the file is believed,
/// so it need not be checked: where the status is `DONE`, the bytes are a proof for this root.
///
/// Where there is less room, `count` is the length that is needed, and nothing else is written.
/// Else the status is that of the first fault that is met, and `chunk` the chunk that this names.
///
/// Takes memory for the chunks of the proof. Goes over the frames of the file, and hashes the chunks
/// of the proof.
#[unsafe(no_mangle)]
pub extern "C" fn prolly_prove(
    alloc: Global,
    bytes: &[u8],
    version: u8,
    root: &[u8; 20],
    key: &[u8],
    out: &mut [u8],
    count: &mut usize,
    chunk: &mut u64,
) -> u32
    ensures proves { result ≡ 0 → ProvesSome version root.now key.now (take count.new out.new) }
    ensures within { result ≡ 0 → count.new ≤ length out.new }
    ensures behind { result ≡ 0 → drop count.new out.new ≡ drop count.new out.old }
    ensures room { result ≡ 3 → (length out.new < count.new) ×
        HasProof version root.now key.now count.new }
    ensures lawful { (content : Content) → IsFileOf bytes.now content →
        version_byte content.version ≡ version →
        root.now ≡ root_reference (sha512_cut content.bits) content.version content.pairs →
        (result ≡ 0) ⊎ ((result ≡ 2) ⊎ (result ≡ 3)) }
    ensures refused { (result ≡ 0) ⊎ ((result ≡ 2) ⊎ ((result ≡ 3) ⊎ ((result ≡ 6) ⊎
        TellsFault result chunk.new))) }
    ensures first { (file : ChunkFile) → file.bytes ≡ bytes.now → IsCut file → 6 < result →
        TellsFirstFault version file root.now key.now result chunk.new }
    ensures stays { result ≢ 0 → out.new ≡ out.old }
    ensures uncounted { result ≢ 0 → result ≢ 3 → count.new ≡ count.old }
    ensures unnamed { result ≤ 6 → chunk.new ≡ chunk.old }
    ensures usage { result ≡ 6 → (version ≡ 1 → ⊥) × (version ≡ 2 → ⊥) }
    ensures version { (version ≡ 1) ⊎ ((version ≡ 2) ⊎ (result ≡ 6)) }
{
    let Some(format) = Version::of(version) else {
        return USAGE;
    };
    match proof_in(alloc, bytes, format, &Ref(*root), key) {
        Ok(proof) => {
            *count = proof.len();
            if proof.len() > out.len() {
                return NO_ROOM;
            }
            put_bytes(&proof, out, 0);
            DONE
        }
        Err(fault) => tell(root_status(fault), chunk),
    }
}
