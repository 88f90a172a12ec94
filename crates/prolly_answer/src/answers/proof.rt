//! What `prove` and `verify` answer.
ghost use Rattle.std.specs.Prelude.{◌≡◌, ◌≢◌, ◌⊎◌, true, IfErr, IfOk, OnErr};
ghost use Rattle.prolly_look_up.specs.Sought.Sought.{Key};
ghost use Rattle.prolly_root.specs.ProofFile.{IsSomeProof};
ghost use Rattle.prolly_root.specs.RootFault.{TellsReads};
ghost use Rattle.prolly_root.specs.declared.root_fault.RootFault.{RootFault as RootFaultValue};
ghost use Rattle.prolly_answer.specs.LookUps.{ShowsFailedRead};
ghost use Rattle.prolly_answer.specs.Outputs.{TookAll, TookPart};
ghost use Rattle.prolly_answer.specs.Proofs.{IsProve, IsProveByRoot, IsProvedOf, IsUnproved};
ghost use Rattle.prolly_answer.specs.Proofs.{IsVerify, ProofByRoot};
ghost use Rattle.prolly_answer.specs.RootFaults.{MayRefuse};
ghost use Rattle.prolly_fault.specs.Answers.{ShowsFault};

use crate::answers::get::value_shown;
use crate::input::input_of;
use prolly_check::{ChunkHasher, check_by};
use prolly_entry::{Ref, Version};
use prolly_fault::{Answer, Fault, INPUT_LIMIT};
use prolly_io::{Sink, Source, WriteFault, write_whole};
use prolly_range::prove_checked_key;
use prolly_root::laws::lawful_files_are_read;
use prolly_root::{ChunkSource, Reader, RootFault, verify};
use prolly_text::Notation;
use std::alloc::{AllocError, Global};

/// What `prove` answers: it reads a chunk file from the source, writes a proof of what it has at
/// the key to the sink, and shows nothing; or it shows the line of the fault of a file that `check`
/// refuses, and writes nothing. That a key has no value is proved as a value is.
///
/// The file is checked first, as by `check`. Beside what that takes, memory is taken for the proof,
/// one chunk a level. An `Err` is want of memory for that, or for the line of a fault; the sink is
/// then as it was, or it failed.
pub fn answer_prove<H: ChunkHasher, S: Source, W: Sink>(
    hasher: &H,
    alloc: Global,
    source: &mut S,
    key: &[u8],
    sink: &mut W,
) -> Result<Answer, AllocError>
    requires { H.can_hash hasher.now }
    ensures ok { (S.seen source.old).is_honest ≡ true →
        IfOk result (IsProve key.now (S.seen source.old).left
        ((S.seen source.new).failures ≢ (S.seen source.old).failures)
        (λ proof. TookAll W.seen proof sink.old sink.new)
        (λ proof. TookPart W.seen proof sink.old sink.new)
        (sink.new ≡ sink.old)) }
    ensures err { (S.seen source.old).is_honest ≡ true →
        OnErr result ((sink.new ≡ sink.old) ⊎ IsProvedOf key.now (S.seen source.old).left
        ((S.seen source.new).failures ≢ (S.seen source.old).failures)
        (λ proof. TookPart W.seen proof sink.old sink.new)) }
    ensures read { (S.seen source.new).failures ≢ (S.seen source.old).failures →
        (sink.new ≡ sink.old) × IfOk result ShowsFailedRead }
{
    let tree = match check_by(hasher, alloc, source, INPUT_LIMIT) {
        Ok(tree) => tree,
        Err(fault) => return Answer::of_fault(alloc, Fault::Check(fault)),
    };
    let proof = prove_checked_key(alloc, &tree, key)?;
    match write_whole(sink, &proof) {
        Ok(()) => Ok(Answer::of_done(alloc)),
        Err(WriteFault) => Answer::of_fault(alloc, Fault::Write),
    }
}

/// What `prove` answers to who names the root: it writes the proof of what the tree with this root
/// has at the key to the sink, and shows nothing; or it shows the line of the first fault of the file,
/// or on the way to the key, and writes nothing. That a key has no value is proved as a value is.
///
/// Of the source only the chunks on the way to the key are read, each compared with the reference
/// above it. What the proof is of a map with the root is said by
/// [`proofs_are_right`](prolly_root::laws::proofs_are_right): the one that [`answer_prove`] writes.
/// Memory is taken for these chunks and for the proof. An `Err` is want of memory for the line of a
/// fault; the sink is then as it was, or it failed.
pub fn answer_prove_by_root<S: ChunkSource, W: Sink>(
    alloc: Global,
    source: &mut S,
    version: Version,
    root: &Ref,
    key: &[u8],
    sink: &mut W,
) -> Result<Answer, AllocError>
    ensures ok { IfOk result (IsProveByRoot
        (MayRefuse (S.goes_over source.old) version root.now.0 (Key key.now))
        (TellsReads (S.failures source.old) (S.failures source.new)) version root.now.0 key.now
        (λ proof. TookAll W.seen proof sink.old sink.new)
        (λ proof. TookPart W.seen proof sink.old sink.new)
        (sink.new ≡ sink.old)) }
    ensures err { OnErr result (ProofByRoot version root.now.0 key.now
        (λ proof. TookPart W.seen proof sink.old sink.new) ⊎ ((fault : RootFaultValue) × IsUnproved
        (MayRefuse (S.goes_over source.old) version root.now.0 (Key key.now))
        (TellsReads (S.failures source.old) (S.failures source.new))
        (sink.new ≡ sink.old) fault)) }
{
    let proof = match proof_in(alloc, source, version, root, key) {
        Ok(proof) => proof,
        Err(fault) => return Answer::of_fault(alloc, Fault::Root(fault)),
    };
    match write_whole(sink, &proof) {
        Ok(()) => Ok(Answer::of_done(alloc)),
        Err(WriteFault) => Answer::of_fault(alloc, Fault::Write),
    }
}

/// The proof of what the source's tree with this root has at the key.
fn proof_in<S: ChunkSource>(
    alloc: Global,
    source: &mut S,
    version: Version,
    root: &Ref,
    key: &[u8],
) -> Result<Vec<u8>, RootFault>
    ensures proves { IfOk result (λ proof. IsSomeProof version root.now.0 key.now proof.items) }
    ensures refuses { IfErr result
        (MayRefuse (S.goes_over source.old) version root.now.0 (Key key.now)) }
    ensures reads { TellsReads (S.failures source.old) (S.failures source.new) result }
{
    // By this law a lawful file has no fault.
    lawful_files_are_read();
    let mut reader = Reader::open(alloc, source, version, root)?;
    reader.prove(alloc, source, key)
}

/// What `verify` answers: the value that the proof shows for the key, in this notation; nothing,
/// with status 1, where the proof shows that the key has none; or the line of the first fault of
/// bytes that are no such proof. At most 1,073,741,824 bytes are read; a longer proof is refused as
/// too long. An `Err` is want of memory for the answer's own text.
///
/// The version is that of the tree's chunks; like the root, it comes from who is trusted. Takes
/// memory for the bytes, and time linear in them.
pub fn answer_verify<S: Source>(
    alloc: Global,
    source: &mut S,
    notation: Notation,
    version: Version,
    root: &Ref,
    key: &[u8],
) -> Result<Answer, AllocError>
    ensures shown { (S.seen source.old).is_honest ≡ true →
        IfOk result (IsVerify notation version root.now.0 key.now (S.seen source.old).left
        ((S.seen source.new).failures ≢ (S.seen source.old).failures)) }
    ensures read { (S.seen source.new).failures ≢ (S.seen source.old).failures →
        IfOk result (λ answer. ShowsFault answer Fault.Read) }
{
    let proof = match input_of(alloc, source) {
        Ok(proof) => proof,
        Err(fault) => return Answer::of_fault(alloc, fault),
    };
    match verify(version, root, key, &proof) {
        Ok(value) => value_shown(alloc, notation, value),
        Err(fault) => Answer::of_fault(alloc, Fault::Proof(fault)),
    }
}
