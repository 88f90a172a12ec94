//! What a proof says, for who knows the root alone.
ghost use Rattle.std.specs.Prelude.{◌≡◌, ◌≢◌, ◌⊎◌, ◌≤◌, Some, None};
ghost use Rattle.prolly_c.specs.Proofs.{IsRefusedProof, SaysOf};

use crate::status::{DONE, NONE, USAGE, proof_status};
use prolly_entry::{Ref, Version};
use prolly_root::verify;

/// What a proof says of a key, in the tree of version 1 or 2 that has this root: the value, which
/// lies in the proof, or that the key has none. Both the version and the root have to come from who
/// is trusted.
///
/// Takes no memory, and time linear in the proof: each of its chunks is hashed once. Where it proves
/// nothing, the status is its first fault, and `chunk` the chunk that this names, counted from 0.
#[unsafe(no_mangle)]
pub extern "C" fn prolly_verify<'a>(
    version: u8,
    root: &[u8; 20],
    key: &[u8],
    proof: &'a [u8],
    value: &mut &'a [u8],
    chunk: &mut u64,
) -> u32
    ensures found { result ≡ 0 → SaysOf version root.now key.now proof.now (Some value.new.now) }
    ensures none { result ≡ 1 → SaysOf version root.now key.now proof.now None }
    ensures refused { (result ≤ 1) ⊎ ((result ≡ 6) ⊎
        IsRefusedProof version root.now key.now proof.now result chunk.new) }
    ensures stays { result ≢ 0 → value.new ≡ value.old }
    ensures unnamed { result ≤ 6 → chunk.new ≡ chunk.old }
    ensures usage { result ≡ 6 → (version ≡ 1 → ⊥) × (version ≡ 2 → ⊥) }
{
    let Some(format) = Version::of(version) else {
        return USAGE;
    };
    match verify(format, &Ref(*root), key, proof) {
        Ok(Some(found)) => {
            *value = found;
            DONE
        }
        Ok(None) => NONE,
        Err(fault) => {
            let (status, number) = proof_status(fault);
            *chunk = number;
            status
        }
    }
}
