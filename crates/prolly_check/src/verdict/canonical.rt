//! Comparing the chunks of a file with those of the file of the pairs that they hold.
ghost use Rattle.std.specs.Prelude.{◌≡◌, ◌<◌, ◌+◌, ◌^◌, [], ℕ, true, false, None, Some, OnOk};
ghost use Rattle.std.specs.Prelude.{IfErr, drop, length, take};
ghost use Rattle.std.specs.List.{flat_map};
ghost use Rattle.prolly_entry.specs.declared.version.Version.{Version as VersionValue};
ghost use Rattle.prolly_check.specs.Digests.{AreDigests};
ghost use Rattle.prolly_look_up.specs.Entries.{AreWhole};
ghost use Rattle.prolly_check.specs.FirstFault.{CompareAs};
ghost use Rattle.prolly_check.specs.Follower.{IsOutOfPlace};
ghost use Rattle.prolly_look_up.specs.HeldPairs.{pairs_held};
ghost use Rattle.prolly_check.specs.Verdict.{UnlessMemory};

use crate::chunks::Chunks;
use crate::verdict::digests::ChunkDigest;
use crate::verdict::fault::CheckFault;
use crate::verdict::follower::Follower;
use prolly_entry::{Sha512Cut, Version};
use std::alloc::Global;

/// Tests that the chunks of a file are those of the file of the pairs that they hold, or tells the
/// first that is not.
///
/// Follows them in their order, and reads no pair. Holds an open node of each level beside the file,
/// and takes one hash of each child of a node.
pub(crate) fn test_followed(
    alloc: Global,
    cut: Sha512Cut,
    version: Version,
    chunks: &Chunks,
    digests: &[ChunkDigest],
) -> Result<(), CheckFault>
    requires whole { AreWhole version chunks.now }
    requires few { length (flat_map pairs_held chunks.now) < 2 ^ 64 }
    requires digests { AreDigests version cut chunks.now digests.now }
    ensures ok { OnOk result (CompareAs version cut chunks.now None) }
    ensures err { IfErr result (UnlessMemory (λ fault.
        CompareAs version cut chunks.now (Some fault))) }
{
    let mut follower = Follower::new(alloc, cut, version)?;
    for number in 0..chunks.len() {
        let later = follower.place_of_end(number);
        let chunk = chunks.chunk(number);
        let next = chunks.ahead(digests, number + 1);
        if let Err(fault) = follower.take(alloc, number, chunk, digests[number], &next) {
            return Err(first_fault(chunks, number + 1, later, fault));
        }
    }
    follower.finish(alloc, chunks.len())
}

/// What is told of a file whose first chunks, so many, show this fault. Where pairs follow them, the
/// file parts from that of all its pairs at `later`.
fn first_fault(chunks: &Chunks, read: usize, later: usize, fault: CheckFault) -> CheckFault
    ensures { (bits : ℕ) (version : VersionValue) → AreWhole version chunks.now →
        length (flat_map pairs_held chunks.now) < 2 ^ 64 →
        UnlessMemory (IsOutOfPlace bits version (take read chunks.now) later) fault →
        UnlessMemory (λ told. CompareAs version bits chunks.now (Some told)) result }
{
    if fault == CheckFault::Memory {
        return fault;
    }
    if has_pairs(chunks, read) {
        return CheckFault::NotCanonical { chunk: later };
    }
    fault
}

/// Whether one of the chunks from this number on has pairs.
fn has_pairs(chunks: &Chunks, from: usize) -> bool
    ensures some { result ≡ true → flat_map pairs_held (drop from chunks.now) ≡ [] → ⊥ }
    ensures none { result ≡ false → flat_map pairs_held (drop from chunks.now) ≡ [] }
{
    for number in from..chunks.len() {
        if !chunks.pairs(number).is_empty() {
            return true;
        }
    }
    false
}
