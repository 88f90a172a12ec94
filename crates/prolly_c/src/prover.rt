//! Making proofs out of a chunk file in memory.
ghost use Rattle.std.specs.Prelude.{◌≡◌, ◌≢◌, ◌⊎◌, IfErr, IfOk};
ghost use Rattle.prolly_entry.specs.Cut.{sha512_cut};
ghost use Rattle.prolly_tree.specs.File.{root_reference};
ghost use Rattle.prolly_look_up.specs.Content.{Content, IsFileOf};
ghost use Rattle.prolly_look_up.specs.Sought.Sought.{Key};
ghost use Rattle.prolly_root.specs.ChunkFile.{ChunkFile, IsCut};
ghost use Rattle.prolly_root.specs.LookUpFault.{IsFirstFault};
ghost use Rattle.prolly_root.specs.ProofFile.{IsSomeProof};
ghost use Rattle.prolly_root.specs.declared.root_fault.RootFault.TheVariants.{Memory, Read};
ghost use Rattle.prolly_range.specs.KeySet.{set_of};
ghost use Rattle.prolly_range.specs.FirstFault.{IsFirstSetFault};
ghost use Rattle.prolly_c.specs.RangeProofs.{IsSomeRangeProof};

use crate::gathered::Gathered;
use prolly_entry::{Ref, Version};
use prolly_io::InMemory;
use prolly_range::{KeySet, ProveFault, prove_set};
use prolly_root::laws::lawful_files_are_read;
use prolly_root::{FileChunks, Reader, RootFault};
use std::alloc::Global;

/// The proof of what the tree of this version and root has at the key. A lawful file of that tree is
/// refused for want of memory alone; of any other it is told what is wrong first.
pub(crate) fn proof_in(
    alloc: Global,
    bytes: &[u8],
    version: Version,
    root: &Ref,
    key: &[u8],
) -> Result<Vec<u8>, RootFault>
    ensures proves { IfOk result (λ proof.
        IsSomeProof version root.now.0 key.now proof.items) }
    ensures lawful { (content : Content) → IsFileOf bytes.now content →
        content.version ≡ version →
        root.now.0 ≡ root_reference (sha512_cut content.bits) content.version content.pairs →
        IfErr result (λ fault. fault ≡ Memory) }
    ensures first { (file : ChunkFile) → file.bytes ≡ bytes.now → IsCut file →
        IfErr result (λ fault. (fault ≡ Memory) ⊎
        IsFirstFault version file root.now.0 (Key key.now) fault) }
    ensures unread { IfErr result (λ fault. fault ≢ Read) }
{
    // By this law a lawful file has no fault.
    lawful_files_are_read();
    let mut chunks = FileChunks::new(InMemory::new(bytes));
    match Reader::open(alloc, &mut chunks, version, root) {
        Ok(mut reader) => reader.prove(alloc, &mut chunks, key),
        Err(fault) => Err(fault),
    }
}

/// The proof of what the tree of this version and root has at the keys of the set. Else as
/// [`proof_in`].
pub(crate) fn range_proof_in(
    alloc: Global,
    bytes: &[u8],
    version: Version,
    root: &Ref,
    set: KeySet<'_>,
) -> Result<Vec<u8>, RootFault>
    ensures proves { IfOk result (λ proof.
        IsSomeRangeProof version root.now.0 (set_of set.entry) proof.items) }
    ensures lawful { (content : Content) → IsFileOf bytes.now content →
        content.version ≡ version →
        root.now.0 ≡ root_reference (sha512_cut content.bits) content.version content.pairs →
        IfErr result (λ fault. fault ≡ Memory) }
    ensures first { (file : ChunkFile) → file.bytes ≡ bytes.now → IsCut file →
        IfErr result (λ fault. (fault ≡ Memory) ⊎
        IsFirstSetFault version file root.now.0 (set_of set.entry) fault) }
    ensures unread { IfErr result (λ fault. fault ≢ Read) }
{
    let mut chunks = FileChunks::new(InMemory::new(bytes));
    let mut sink = Gathered::new(alloc);
    match prove_set(alloc, &mut chunks, version, root, set, &mut sink) {
        Ok(()) => Ok(sink.into_bytes()),
        Err(ProveFault::Chunks(fault)) => Err(fault),
        // No write fails but where memory is refused.
        Err(ProveFault::Write) => Err(RootFault::Memory),
    }
}
