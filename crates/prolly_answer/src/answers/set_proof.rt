//! What `prove` answers of a set of keys.
ghost use Rattle.std.specs.Prelude.{◌≡◌, ◌≢◌, ◌⊎◌, true, IfOk, OnErr};
ghost use Rattle.prolly_range.specs.KeySet.{set_of};
ghost use Rattle.prolly_range.specs.declared.prove_fault.ProveFault.{ProveFault as ProveFaultValue};
ghost use Rattle.prolly_answer.specs.LookUps.{ShowsFailedRead};
ghost use Rattle.prolly_answer.specs.SetProofs.{IsProveSet, IsProveSetByRoot, IsStoppedByRoot};
ghost use Rattle.prolly_answer.specs.SetProofs.{IsStoppedProof, MayRefuseProof};

use prolly_check::{ChunkHasher, check_by};
use prolly_entry::{Ref, Version};
use prolly_fault::{Answer, Fault, INPUT_LIMIT};
use prolly_io::{Sink, Source};
use prolly_range::{KeySet, prove_checked_set, prove_set};
use prolly_root::ChunkSource;
use std::alloc::{AllocError, Global};

/// What `prove` answers of a set of keys: it reads a chunk file from the source, writes the proof of
/// what it has at the keys to the sink, flushes that, and shows nothing; or it shows the line of the
/// fault of a file that `check` refuses, and writes nothing. Behind a fault of writing the sink has a
/// part of the proof.
///
/// The file is checked first, as by `check`. Beside what that takes, memory is taken for one chunk at
/// a time. An `Err` is want of memory for the line of a fault.
pub fn answer_prove_set<H: ChunkHasher, S: Source, W: Sink>(
    hasher: &H,
    alloc: Global,
    source: &mut S,
    set: KeySet<'_>,
    sink: &mut W,
) -> Result<Answer, AllocError>
    requires { H.can_hash hasher.now }
    ensures ok { (S.seen source.old).is_honest ≡ true →
        IfOk result (IsProveSet (set_of set.entry) (S.seen source.old).left
        ((S.seen source.new).failures ≢ (S.seen source.old).failures) (W.seen sink.old)
        (W.seen sink.new) (sink.new ≡ sink.old)) }
    ensures err { (S.seen source.old).is_honest ≡ true →
        OnErr result ((sink.new ≡ sink.old) ⊎ ((fault : ProveFaultValue) × IsStoppedProof
        (set_of set.entry) (S.seen source.old).left
        ((S.seen source.new).failures ≢ (S.seen source.old).failures) (W.seen sink.old)
        (W.seen sink.new) fault)) }
    ensures read { (S.seen source.new).failures ≢ (S.seen source.old).failures →
        (sink.new ≡ sink.old) × IfOk result ShowsFailedRead }
{
    let tree = match check_by(hasher, alloc, source, INPUT_LIMIT) {
        Ok(tree) => tree,
        Err(fault) => return Answer::of_fault(alloc, Fault::Check(fault)),
    };
    match prove_checked_set(alloc, &tree, set, sink) {
        Ok(()) => Ok(Answer::of_done(alloc)),
        Err(fault) => Answer::of_fault(alloc, Fault::from(fault)),
    }
}

/// What `prove` answers of a set of keys to who names the root: it writes the proof of what the tree
/// with this root has at the keys to the sink, flushes that, and shows nothing; or it shows the line
/// of the fault that stopped it, and the sink has a first part of the proof.
///
/// Of the source the chunks of the proof are read, each compared with the reference above it. What
/// the proof is of a map with the root is said by
/// [`set_proofs_are_right`](prolly_range::laws::set_proofs_are_right). Memory is taken for one chunk
/// at a time. An `Err` is want of memory for the line of a fault.
pub fn answer_prove_set_by_root<S: ChunkSource, W: Sink>(
    alloc: Global,
    source: &mut S,
    version: Version,
    root: &Ref,
    set: KeySet<'_>,
    sink: &mut W,
) -> Result<Answer, AllocError>
    ensures ok { IfOk result (IsProveSetByRoot
        (MayRefuseProof (S.goes_over source.old) version root.now.0 (set_of set.entry)) version
        root.now.0
        (set_of set.entry) (record {
          reads_before = S.failures source.old;
          reads_after = S.failures source.new;
          sink_before = W.seen sink.old;
          sink_after = W.seen sink.new;
        })) }
    ensures err { OnErr result ((fault : ProveFaultValue) × IsStoppedByRoot
        (MayRefuseProof (S.goes_over source.old) version root.now.0 (set_of set.entry)) version
        root.now.0
        (set_of set.entry) (record {
          reads_before = S.failures source.old;
          reads_after = S.failures source.new;
          sink_before = W.seen sink.old;
          sink_after = W.seen sink.new;
        }) fault) }
{
    match prove_set(alloc, source, version, root, set, sink) {
        Ok(()) => Ok(Answer::of_done(alloc)),
        Err(fault) => Answer::of_fault(alloc, Fault::from(fault)),
    }
}
