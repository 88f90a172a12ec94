//! What the proof of a range shows, for who knows the root alone.
ghost use Rattle.std.specs.Prelude.{◌≡◌, ◌≢◌, ◌⊎◌, ◌<◌, ◌≤◌, ◌*◌, ℕ, List, length, take, drop};
ghost use Rattle.std.specs.List.{AllByRecursion};
ghost use Rattle.prolly_entry.specs.Cut.{sha512_cut};
ghost use Rattle.prolly_entry.specs.Pair.{Pair, IsPair};
ghost use Rattle.prolly_entry.specs.Version.{version_byte};
ghost use Rattle.prolly_entry.specs.declared.version.Version.{Version as VersionValue};
ghost use Rattle.prolly_tree.specs.Difference.{IsMap};
ghost use Rattle.prolly_tree.specs.File.{root_reference};
ghost use Rattle.prolly_c.specs.RangeProofs.{HasRuns, IsRefusedRange, ProvesRange, ScansOrClash};
ghost use Rattle.prolly_c.specs.RangeProofs.{ShowsRange, range_of};

use crate::range::bound;
use crate::run::Run;
use crate::shown::shown_index;
use crate::status::{DONE, NO_ROOM, USAGE, set_status, tell};
use prolly_entry::{Ref, Version};
use prolly_range::laws::set_proofs_are_right;
use std::alloc::Global;

/// What a proof shows of a range of keys, in the tree of version 1 or 2 that has this root: of the
/// keys that are not less than `from`, and, where the range is bounded, less than `to`. Both the
/// version and the root have to come from who is trusted.
///
/// Writes the index of the pairs that are shown, over the bytes of the proof, and tells how many runs
/// it has. A cursor of zeros stands before the first of these pairs. Where there is room for fewer
/// runs, the status is `NO_ROOM`, and what stands in `index` means nothing. Where the bytes prove
/// nothing, the status is their first fault, and `chunk` the chunk that this names, counted from 0.
///
/// Takes memory for one chunk, and for references. Hashes each chunk of the proof once.
#[unsafe(no_mangle)]
pub extern "C" fn prolly_verify_range(
    alloc: Global,
    version: u8,
    root: &[u8; 20],
    from: &[u8],
    to: &[u8],
    bounded: bool,
    proof: &[u8],
    index: &mut [Run],
    count: &mut usize,
    chunk: &mut u64,
) -> u32
    ensures shows { result ≡ 0 → ShowsRange version root.now (range_of from.now to.now bounded)
        proof.now (take count.new index.new) }
    ensures right { result ≡ 0 → (format : VersionValue) (bits : ℕ) (m : List Pair) →
        version_byte format ≡ version → IsMap m → AllByRecursion IsPair m →
        root.now ≡ root_reference (sha512_cut bits) format m →
        ScansOrClash format bits m (range_of from.now to.now bounded) proof.now
        (take count.new index.new) }
    ensures within { result ≡ 0 → count.new ≤ length index.new }
    ensures behind { result ≡ 0 → drop count.new index.new ≡ drop count.new index.old }
    ensures room { result ≡ 3 → (length index.new < count.new) ×
        ProvesRange version root.now (range_of from.now to.now bounded) proof.now }
    ensures counted { (result ≡ 0) ⊎ (result ≡ 3) →
        HasRuns version root.now (range_of from.now to.now bounded) proof.now count.new }
    ensures few { (result ≡ 0) ⊎ (result ≡ 3) → 6 * count.new ≤ length proof.now }
    ensures proofs { ProvesRange version root.now (range_of from.now to.now bounded) proof.now →
        (result ≡ 0) ⊎ ((result ≡ 2) ⊎ (result ≡ 3)) }
    ensures refused { (result ≡ 0) ⊎ ((result ≡ 2) ⊎ ((result ≡ 3) ⊎ ((result ≡ 6) ⊎
        IsRefusedRange version root.now (range_of from.now to.now bounded) proof.now result
        chunk.new))) }
    ensures stays { result ≢ 0 → result ≢ 3 →
        (index.new ≡ index.old) × (count.new ≡ count.old) }
    ensures unnamed { result ≤ 6 → chunk.new ≡ chunk.old }
    ensures usage { result ≡ 6 → (version ≡ 1 → ⊥) × (version ≡ 2 → ⊥) }
    ensures version { (version ≡ 1) ⊎ ((version ≡ 2) ⊎ (result ≡ 6)) }
{
    // By this law such a proof shows what the map with the root has in the range.
    set_proofs_are_right();
    let Some(format) = Version::of(version) else {
        return USAGE;
    };
    match shown_index(
        alloc,
        format,
        &Ref(*root),
        from,
        bound(to, bounded),
        proof,
        index,
    ) {
        Ok(runs) => {
            *count = runs;
            if runs > index.len() {
                return NO_ROOM;
            }
            DONE
        }
        Err(fault) => tell(set_status(fault), chunk),
    }
}
