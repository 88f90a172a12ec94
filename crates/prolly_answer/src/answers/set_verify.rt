//! What `verify` answers of a set of keys.
ghost use Rattle.std.specs.Prelude.{◌≡◌, ◌≢◌, map, Err, IfOk, OnErr};
ghost use Rattle.prolly_range.specs.KeySet.{set_of};
ghost use Rattle.prolly_answer.specs.Outputs.{TookAll, TookPart, TookSoFar, WroteOwn};
ghost use Rattle.prolly_answer.specs.SetLines.{FitsLeft, RisesIn, alone_lines, left_at_first};
ghost use Rattle.prolly_answer.specs.SetLines.{left_behind, more_lines};
ghost use Rattle.prolly_answer.specs.SetProofs.{IsEndedSet, IsVerifySet, TellsProofReads};
ghost use Rattle.prolly_fault.specs.declared.fault.Fault.{Fault as FaultValue};

use crate::answers::flushed::settled;
use crate::answers::shown_lines::{append_alone, append_shown};
use prolly_entry::{Ref, Version};
use prolly_fault::{Answer, Fault, OutputFault};
use prolly_io::{Sink, Source, write_all};
use prolly_range::laws::shown_in_order;
use prolly_range::{KeySet, ProvedChunk, SetVerifier};
use prolly_text::Notation;
use std::alloc::{AllocError, Global};

/// What `verify` answers of a set of keys: it writes the lines of what the proof shows to the sink,
/// and shows nothing; or it shows the line of the first fault, which is that of bytes that are no such
/// proof, of a read or of writing. Of a range there is a line of key and value for each pair. Of a
/// list there is one for each key: key and value, or the key alone where there is none. What was
/// written before a fault is right, and the status tells that it is not all. An `Err` is want of
/// memory for the line of the fault.
///
/// The version is that of the tree's chunks; like the root, it comes from who is trusted. What is
/// written of a map with the root is said by [`ranges_are_right`](crate::laws::ranges_are_right) and
/// [`shown_keys_are_right`](crate::laws::shown_keys_are_right). The proof may be of any size: memory
/// is taken for one chunk, for the lines that are told of it, and for the references that are due. The
/// sink is called once for each leaf, when its chunk was compared with its reference, or more often
/// where it takes only a part, and flushed at the end. A key of a list that has no value is told with
/// the next one that has one, or at the end.
pub fn answer_verify_set<S: Source, W: Sink>(
    alloc: Global,
    source: &mut S,
    notation: Notation,
    version: Version,
    root: &Ref,
    set: KeySet<'_>,
    sink: &mut W,
) -> Result<Answer, AllocError>
    ensures ok { IfOk result (IsVerifySet (IsEndedSet notation version root.now.0 (set_of set.entry)
        (S.seen source.old).is_honest (S.seen source.old).left
        (λ bytes. TookAll W.seen bytes sink.old sink.new)
        (λ bytes. TookPart W.seen bytes sink.old sink.new))
        (TellsProofReads ((S.seen source.new).failures ≢ (S.seen source.old).failures))) }
    ensures err { OnErr result ((fault : FaultValue) ×
        IsEndedSet notation version root.now.0 (set_of set.entry)
        (S.seen source.old).is_honest (S.seen source.old).left
        (λ bytes. TookAll W.seen bytes sink.old sink.new)
        (λ bytes. TookPart W.seen bytes sink.old sink.new) (Err fault) ×
        TellsProofReads ((S.seen source.new).failures ≢ (S.seen source.old).failures)
        (Err fault)) }
{
    match write_set(alloc, source, notation, version, root, set, sink) {
        Ok(()) => Ok(Answer::of_done(alloc)),
        Err(fault) => Answer::of_fault(alloc, fault),
    }
}

/// Writes the lines of a set of keys, and flushes the sink, also where a fault stops that.
fn write_set<S: Source, W: Sink>(
    alloc: Global,
    source: &mut S,
    notation: Notation,
    version: Version,
    root: &Ref,
    set: KeySet<'_>,
    sink: &mut W,
) -> Result<(), Fault>
    ensures ended { IsEndedSet notation version root.now.0 (set_of set.entry)
        (S.seen source.old).is_honest (S.seen source.old).left
        (λ bytes. TookAll W.seen bytes sink.old sink.new)
        (λ bytes. TookPart W.seen bytes sink.old sink.new) result }
    ensures reads { TellsProofReads ((S.seen source.new).failures ≢ (S.seen source.old).failures)
        result }
{
    let outcome = write_chunks(alloc, source, notation, version, root, set, sink);
    settled(sink, outcome)
}

/// Writes the lines of a set of keys, leaf by leaf, as its proof shows them, and at the end those of
/// the keys that are left.
fn write_chunks<S: Source, W: Sink>(
    alloc: Global,
    source: &mut S,
    notation: Notation,
    version: Version,
    root: &Ref,
    set: KeySet<'_>,
    sink: &mut W,
) -> Result<(), Fault>
    ensures ended { IsEndedSet notation version root.now.0 (set_of set.entry)
        (S.seen source.old).is_honest (S.seen source.old).left
        (λ bytes. TookSoFar W.seen bytes sink.old sink.new)
        (λ bytes. TookPart W.seen bytes sink.old sink.new) result }
    ensures reads { TellsProofReads ((S.seen source.new).failures ≢ (S.seen source.old).failures)
        result }
{
    // By this law the pairs of a list of keys come in the order of the list.
    shown_in_order();
    let mut verifier = SetVerifier::open(alloc, version, root, set, source)?;
    let mut lines = Vec::new(alloc);
    let mut left = keys_of(set);
    while let Some(chunk) = verifier.next(alloc, source)? {
        left = write_chunk(notation, &mut lines, set, left, &chunk, sink)?;
    }
    write_alone(notation, &mut lines, left, sink)?;
    Ok(())
}

/// The keys of a list.
fn keys_of<'a>(set: KeySet<'a>) -> &'a [Vec<u8>]
    ensures keys { map (λ k. k.items) result.now ≡ left_at_first (set_of set.entry) }
    ensures rise { RisesIn (set_of set.entry) }
{
    match set {
        KeySet::Range { .. } => &[],
        KeySet::Keys(keys) => keys.keys(),
    }
}

/// Writes the lines that are told of a chunk, where these keys of a list are left. They are put
/// together here. Answers the keys that are left behind it.
fn write_chunk<'k, W: Sink>(
    notation: Notation,
    lines: &mut Vec<u8>,
    set: KeySet<'_>,
    left: &'k [Vec<u8>],
    chunk: &ProvedChunk<'_>,
    sink: &mut W,
) -> Result<&'k [Vec<u8>], OutputFault>
    requires { FitsLeft (set_of set) (map (λ k. k.items) left.now) chunk.now }
    ensures left { IfOk result (λ rest. map (λ k. k.items) rest.now ≡
        left_behind (set_of set.entry) (map (λ k. k.items) left.now) chunk.now) }
    ensures wrote { WroteOwn W.seen (more_lines notation (set_of set.entry)
        (map (λ k. k.items) left.now) chunk.now) sink.old sink.new result }
{
    lines.clear();
    let rest = append_shown(lines, notation, set, left, chunk.pairs())?;
    write_all(sink, lines)?;
    Ok(rest)
}

/// Writes a line for each of the keys alone. They are put together here.
fn write_alone<W: Sink>(
    notation: Notation,
    lines: &mut Vec<u8>,
    keys: &[Vec<u8>],
    sink: &mut W,
) -> Result<(), OutputFault>
    ensures { WroteOwn W.seen (alone_lines notation (map (λ k. k.items) keys.now)) sink.old
        sink.new result }
{
    lines.clear();
    append_alone(lines, notation, keys)?;
    write_all(sink, lines)?;
    Ok(())
}
