//! What the proof of a set of keys shows, for who knows the root alone.
ghost use Rattle.std.specs.Prelude.{◌≡◌, ◌≢◌, ◌↔◌, ◌++◌, [], ◌∷◌, true, false, map};
ghost use Rattle.std.specs.Prelude.{ℕ, Err, IfErr, IfOk, IsErrOf, MatchOption, OnErr, OnOk};
ghost use Rattle.prolly_entry.specs.declared.version.Version.{Version as VersionValue};
ghost use Rattle.prolly_io.specs.Writer.{next_count};
ghost use Rattle.prolly_look_up.specs.Way.{FallsTo, IsNamed};
ghost use Rattle.prolly_root.specs.ProofFault.{IsChunkFault};
ghost use Rattle.prolly_range.specs.Dues.{due_of};
ghost use Rattle.prolly_range.specs.KeySet.{set_of};
ghost use Rattle.prolly_range.specs.SetProof.{root_due, set_start};
ghost use Rattle.prolly_range.specs.Start.{IsSetStartFault};
ghost use Rattle.prolly_range.specs.ToGo.{ComesNearer};
ghost use Rattle.prolly_range.specs.Verifier.{ComesTo, IsNextFault, IsRestOf, IsStartFault};
ghost use Rattle.prolly_range.specs.Verifier.{MayFail};

use crate::due::{Due, put_below};
use crate::fault::SetFault;
use crate::frames::next_frame;
use crate::key_set::KeySet;
use crate::proved::ProvedChunk;
use crate::start::{PROOF_START, test_start};
use prolly_entry::{Ref, Version};
use prolly_io::{FRAME_START, PartReader, Source};
use prolly_look_up::test_chunk;
use prolly_root::ProofFault;
use std::alloc::{AllocError, Global};
use std::collections::VecDeque;
use std::marker::Model;

/// Reads the proof of what a map has at the keys of a set, chunk by chunk, from a [`Source`] of any
/// size, which is lent to each call.
///
/// Taken together the pairs that the chunks show are the first ones of any map with this root whose
/// keys are of the set, and all of them at the end; or two different chunks have one reference: see
/// [`laws::set_proofs_are_right`](crate::laws::set_proofs_are_right). That holds whatever the source
/// gives.
///
/// Memory is taken for one chunk, as its bytes come, and for the references of the children in which
/// keys are sought of the nodes above it. A chunk longer than [`CHUNK_LIMIT`](prolly_io::CHUNK_LIMIT)
/// is told as want of memory.
#[derive(Drop)]
pub struct SetVerifier<'a> {
    version: Version,
    /// The chunks that are due, the next one first.
    due: VecDeque<Due<'a>>,
    /// How many chunks were taken.
    count: usize,
    /// Whether a call failed.
    stopped: bool,
    reader: PartReader,
}

impl<'a> Model for SetVerifier<'a> {
    ghost use Rattle.std.specs.Prelude.{map};
    ghost use Rattle.prolly_range.specs.Dues.{due_of};
    ghost use Rattle.prolly_range.specs.Verifier.{VerifierView};

    ghost Value = { VerifierView };

    ghost view = { λ v. record {
      version = v.version;
      due = map due_of v.due.items;
      count = v.count;
      stopped = v.stopped;
    } };
}

impl<'a> SetVerifier<'a> {
    /// Begins to read a proof. Its root and the version of its chunks have to come from who is
    /// trusted, and not from who made the proof.
    pub fn open<S: Source>(
        alloc: Global,
        version: Version,
        root: &Ref,
        set: KeySet<'a>,
        source: &mut S,
    ) -> Result<SetVerifier<'a>, SetFault>
        ensures begins { IfOk result (λ verifier. verifier ≡ record {
          version = version;
          due = root_due root.now.0 (set_of set.entry) ∷ [];
          count = 0;
          stopped = false;
        }) }
        ensures start { (S.seen source.old).is_honest ≡ true → OnOk result
            ((S.seen source.old).left ≡ set_start version ++ (S.seen source.new).left) }
        ensures fault { (S.seen source.old).is_honest ≡ true →
            IfErr result (IsStartFault version (S.seen source.old).left) }
        ensures read { IsErrOf result SetFault.Read ↔ ((S.seen source.new).failures ≢ (S.seen
            source.old).failures) }
        ensures honest { (S.seen source.old).is_honest ≡ true →
            (S.seen source.new).is_honest ≡ true }
        ensures steady { (S.seen source.old).is_steady ≡ true →
            (S.seen source.new).is_steady ≡ true }
    {
        let mut reader = PartReader::new(alloc)?;
        let due = whole_due(alloc, root, set)?;
        read_start(alloc, source, &mut reader, version)?;
        Ok(SetVerifier {
            version,
            due,
            count: 0,
            stopped: false,
            reader,
        })
    }

    /// The next chunk of the proof, or none at its end. Behind that there is none at each further
    /// call.
    ///
    /// After an `Err` nothing more is shown: each further call fails, and reads nothing.
    pub fn next<S: Source>(
        &mut self,
        alloc: Global,
        source: &mut S,
    ) -> Result<Option<ProvedChunk<'a>>, SetFault>
        ensures version { self.new.version ≡ self.old.version }
        ensures comes { IfOk result (λ chunk. ComesTo self.old.version self.old.due chunk
            self.new.due (S.seen source.old).is_honest (S.seen source.old).left
            (S.seen source.new).left) }
        ensures nearer { IfOk result (λ chunk. ComesNearer self.old.due chunk self.new.due) }
        ensures count { IfOk result (λ chunk. MatchOption chunk (self.new.count ≡ self.old.count)
            (λ _. self.new.count ≡ next_count self.old.count)) }
        ensures fault { (S.seen source.old).is_honest ≡ true → self.old.stopped ≡ false →
            IfErr result (IsNextFault self.old.version self.old.due self.old.count
            (S.seen source.old).left) }

        // A proof is accepted.
        ensures accepts { (S.seen source.old).is_honest ≡ true → self.old.stopped ≡ false →
            IsRestOf self.old.version self.old.due (S.seen source.old).left →
            IfErr result MayFail }

        ensures stops { OnErr result (self.new.stopped ≡ true) }
        ensures goes_on { OnOk result (self.new.stopped ≡ false) }
        ensures stopped { self.old.stopped ≡ true → (result ≡ Err SetFault.Stopped) ×
            (source.new ≡ source.old) }
        ensures read { IsErrOf result SetFault.Read ↔ ((S.seen source.new).failures ≢ (S.seen
            source.old).failures) }
        ensures honest { (S.seen source.old).is_honest ≡ true →
            (S.seen source.new).is_honest ≡ true }
        ensures steady { (S.seen source.old).is_steady ≡ true →
            (S.seen source.new).is_steady ≡ true }
    {
        if self.stopped {
            return Err(SetFault::Stopped);
        }
        self.stopped = true;
        let chunk = next_chunk(
            alloc,
            source,
            self.version,
            &mut self.reader,
            &mut self.due,
            self.count,
        )?;
        if chunk.is_some() {
            self.count = self.count.saturating_add(1);
        }
        self.stopped = false;
        Ok(chunk)
    }
}

/// The whole tree is due.
fn whole_due<'a>(
    alloc: Global,
    root: &Ref,
    set: KeySet<'a>,
) -> Result<VecDeque<Due<'a>>, AllocError>
    ensures { IfOk result (λ due.
        map due_of due.items ≡ root_due root.now.0 (set_of set.entry) ∷ []) }
{
    let mut due = VecDeque::new(alloc);
    due.push_front(Due {
        reference: *root,
        above: None,
        set,
    })?;
    Ok(due)
}

/// Reads what a proof over chunks of the version begins with.
fn read_start<S: Source>(
    alloc: Global,
    source: &mut S,
    reader: &mut PartReader,
    version: Version,
) -> Result<(), SetFault>
    ensures start { (S.seen source.old).is_honest ≡ true → OnOk result
        ((S.seen source.old).left ≡ set_start version ++ (S.seen source.new).left) }
    ensures fault { (S.seen source.old).is_honest ≡ true →
        IfErr result (IsStartFault version (S.seen source.old).left) }
    ensures read { IsErrOf result SetFault.Read ↔ ((S.seen source.new).failures ≢ (S.seen
        source.old).failures) }
    ensures honest { (S.seen source.old).is_honest ≡ true → (S.seen source.new).is_honest ≡ true }
    ensures steady { (S.seen source.old).is_steady ≡ true → (S.seen source.new).is_steady ≡ true }
{
    let mut front = Vec::new(alloc);
    let _ = reader.read_up_to(source, &mut front, PROOF_START)?;
    match test_start(version, &front) {
        Ok(()) => Ok(()),
        Err(fault) => Err(SetFault::Proof(fault)),
    }
}

/// The next chunk of a proof, or none where nothing is due, and the source is at its end.
fn next_chunk<'a, S: Source>(
    alloc: Global,
    source: &mut S,
    version: Version,
    reader: &mut PartReader,
    due: &mut VecDeque<Due<'a>>,
    number: usize,
) -> Result<Option<ProvedChunk<'a>>, SetFault>
    ensures comes { IfOk result (λ chunk. ComesTo version (map due_of due.old.items) chunk
        (map due_of due.new.items) (S.seen source.old).is_honest (S.seen source.old).left
        (S.seen source.new).left) }
    ensures nearer { IfOk result (λ chunk. ComesNearer (map due_of due.old.items) chunk
        (map due_of due.new.items)) }
    ensures fault { (S.seen source.old).is_honest ≡ true → IfErr result (IsNextFault version
        (map due_of due.old.items) number (S.seen source.old).left) }
    ensures read { IsErrOf result SetFault.Read ↔ ((S.seen source.new).failures ≢ (S.seen
        source.old).failures) }
    ensures honest { (S.seen source.old).is_honest ≡ true → (S.seen source.new).is_honest ≡ true }
    ensures steady { (S.seen source.old).is_steady ≡ true → (S.seen source.new).is_steady ≡ true }
{
    let Some(first) = due.pop_front() else {
        test_end(alloc, source, reader)?;
        return Ok(None);
    };
    let frame = next_frame(alloc, source, reader, number)?;
    test_due(version, &frame[FRAME_START..], &first, number)?;
    put_below(alloc, version, &frame[FRAME_START..], first.set, due)?;
    Ok(Some(ProvedChunk::new(version, frame, first.set)))
}

/// Tests whether the source is at its end.
fn test_end<S: Source>(
    alloc: Global,
    source: &mut S,
    reader: &mut PartReader,
) -> Result<(), SetFault>
    ensures over { (S.seen source.old).is_honest ≡ true →
        OnOk result ((S.seen source.old).left ≡ []) }
    ensures fault { (S.seen source.old).is_honest ≡ true → (version : VersionValue) (number : ℕ) →
        IfErr result (IsNextFault version [] number (S.seen source.old).left) }
    ensures read { IsErrOf result SetFault.Read ↔ ((S.seen source.new).failures ≢ (S.seen
        source.old).failures) }
    ensures honest { (S.seen source.old).is_honest ≡ true → (S.seen source.new).is_honest ≡ true }
    ensures steady { (S.seen source.old).is_steady ≡ true → (S.seen source.new).is_steady ≡ true }
{
    let mut behind = Vec::new(alloc);
    if reader.read_up_to(source, &mut behind, 1)? {
        return Ok(());
    }
    Err(SetFault::Proof(ProofFault::Trailing))
}

/// Tests whether the chunk of this number is the one that is due, and one that a tree may have there.
fn test_due(version: Version, chunk: &[u8], due: &Due<'_>, number: usize) -> Result<(), SetFault>
    ensures named { OnOk result (IsNamed version due.now.reference.0 chunk.now) }
    ensures falls { OnOk result (FallsTo due.now.above chunk.now) }
    ensures err { IfErr result (λ fault. (flaw : ProofFault) × (fault ≡ SetFault.Proof flaw) ×
        IsChunkFault version due.now.reference.0 due.now.above chunk.now number flaw) }
{
    match test_chunk(version, chunk, &due.reference, due.above) {
        Ok(()) => Ok(()),
        Err(flaw) => Err(SetFault::Proof(ProofFault::of_flaw(flaw, number))),
    }
}
