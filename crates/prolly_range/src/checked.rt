//! Proofs of a key and of a set of keys, from a file that was checked.
ghost use Rattle.std.specs.Prelude.{◌≡◌, [], ◌∷◌, true, IfErr, IfOk, OnErr, OnOk};
ghost use Rattle.prolly_look_up.specs.Content.{Content, IsFileOf};
ghost use Rattle.prolly_entry.specs.Cut.{sha512_cut};
ghost use Rattle.prolly_io.specs.Sink.{IsSettled};
ghost use Rattle.prolly_root.specs.ProofFile.{IsProofOf};
ghost use Rattle.prolly_tree.specs.File.{root_reference};
ghost use Rattle.prolly_range.specs.KeySet.{set_of};
ghost use Rattle.prolly_range.specs.Prover.{MayStop, TellsSink, WritesPart, WritesProof};
ghost use Rattle.prolly_range.specs.SetProof.{root_due, set_start};

use crate::key_set::KeySet;
use crate::prove_fault::ProveFault;
use crate::prover::prove_set;
use prolly_check::Tree;
use prolly_io::{InMemory, Sink};
use prolly_root::{FileChunks, proof_of};
use std::alloc::{AllocError, Global};

/// The proof of what a checked tree has at the key: of its value, or that it has none.
///
/// The proof has one chunk a level, and [`verify`](prolly_root::verify) reads it. Takes memory for it,
/// and time linear in it, and no hash.
pub fn prove_checked_key(alloc: Global, tree: &Tree, key: &[u8]) -> Result<Vec<u8>, AllocError>
    ensures { IfOk result (λ proof. (content : Content) → IsFileOf tree.now content →
        IsProofOf content key.now proof.items) }
{
    let way = tree.way_to(alloc, key)?;
    proof_of(alloc, tree.version(), &way)
}

/// Writes the proof of what a checked tree has at the keys of the set, and flushes the sink. What a
/// fault leaves in the sink is a first part of a proof.
///
/// Takes memory as [`prove_set`](crate::prove_set) does.
pub fn prove_checked_set<W: Sink>(
    alloc: Global,
    tree: &Tree,
    set: KeySet<'_>,
    sink: &mut W,
) -> Result<(), ProveFault>
    ensures proves { (content : Content) → IsFileOf tree.now content →
        OnOk result (WritesProof content.version
        (root_reference (sha512_cut content.bits) content.version content.pairs) (set_of set.entry)
        (W.seen sink.old) (W.seen sink.new)) }
    ensures settled { OnOk result (IsSettled (W.seen sink.new)) }
    ensures keeping { (W.seen sink.old).is_keeping ≡ true → (W.seen sink.new).is_keeping ≡ true }
    ensures part { (content : Content) → IsFileOf tree.now content →
        OnErr result (WritesPart content.version (root_due
        (root_reference (sha512_cut content.bits) content.version content.pairs)
        (set_of set.entry) ∷ []) (set_start content.version) (W.seen sink.old) (W.seen sink.new)) }
    ensures lawful { (content : Content) → IsFileOf tree.now content → IfErr result MayStop }
    ensures writes { TellsSink (W.seen sink.old).failures (W.seen sink.new).failures result }
{
    let mut chunks = FileChunks::new(InMemory::new(tree.bytes()));
    prove_set(alloc, &mut chunks, tree.version(), &tree.root(), set, sink)
}
