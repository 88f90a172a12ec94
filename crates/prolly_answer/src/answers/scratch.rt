//! The command `scratch`: the chunk file of one record file, in one thread.
ghost use Rattle.std.specs.Prelude.{◌≡◌, ◌≢◌, ◌≤◌, ◌⊎◌, true, IfOk, IfErr, OnErr, OnOk, IsErrOf};
ghost use Rattle.prolly_file.specs.Scratch.{keys_in};
ghost use Rattle.prolly_entry.specs.Keys.{Rising};
ghost use Rattle.prolly_fault.specs.Answers.{ShowsFault};
ghost use Rattle.prolly_answer.specs.Outputs.{TookAll, TookPart, IfSink, OfSink, IsAnswer};
ghost use Rattle.prolly_answer.specs.Outputs.{IsCutShort};
ghost use Rattle.prolly_answer.specs.Scratch.{HoldsPairs, MakesFile, Scratches, IsRecordsFault};
ghost use Rattle.prolly_answer.specs.Scratch.{IsScratchRefusal, run_fault};

use crate::input::{RECORD_LIMIT, input_of};
use prolly_entry::{Pair, RecordFault, Ref, Sha512Cut, Version, records};
use prolly_fault::{Answer, Fault};
use prolly_file::{ScratchFault, scratch_as};
use prolly_io::{Sink, Source, WriteFault, write_whole};
use prolly_link::RunFault;
use std::alloc::{AllocError, Global};

/// How many levels a tree has at most. No map that fits into memory has as many.
const LEVEL_LIMIT: u8 = 255;

/// A chunk file, and its root's reference.
#[derive(Drop)]
struct Tree {
    file: Vec<u8>,
    root: Ref,
}

/// What `scratch` answers: it reads one record file from the source, makes the chunk file of its
/// pairs, writes it to the sink, if there is one, and shows the text of its root.
///
/// The sink is written to only once all else is done. The faults of the record file are told as
/// those of file 0. An `Err` is want of memory for the answer's own text; the sink is then as it
/// was, or it failed.
///
/// Takes time linear in the input, which is dropped before the tree is made. The pairs and then the
/// tree are held in memory: see docs/measurements.md.
pub fn answer_scratch<S: Source, W: Sink>(
    alloc: Global,
    source: &mut S,
    bits: u8,
    version: Version,
    sink: &mut Option<W>,
) -> Result<Answer, AllocError>
    requires { bits ≤ 24 }
    ensures ok { (S.seen source.old).is_honest ≡ true → IfOk result (IsAnswer
        (Scratches bits version (S.seen source.old).left
        ((S.seen source.new).failures ≢ (S.seen source.old).failures))
        (IsScratchRefusal bits version (S.seen source.old).left
        ((S.seen source.new).failures ≢ (S.seen source.old).failures))
        (λ file. IfSink (TookAll W.seen file) sink.old sink.new)
        (λ file. OfSink (TookPart W.seen file) sink.old sink.new)
        (sink.new ≡ sink.old)) }
    ensures err { (S.seen source.old).is_honest ≡ true →
        OnErr result ((sink.new ≡ sink.old) ⊎ IsCutShort
        (Scratches bits version (S.seen source.old).left
        ((S.seen source.new).failures ≢ (S.seen source.old).failures))
        (λ file. OfSink (TookPart W.seen file) sink.old sink.new)) }
    ensures read { (S.seen source.new).failures ≢ (S.seen source.old).failures →
        (sink.new ≡ sink.old) × IfOk result (λ answer. ShowsFault answer
        Fault.Read) }
{
    let tree = match tree_of(alloc, source, bits, version) {
        Ok(tree) => tree,
        Err(fault) => return Answer::of_fault(alloc, fault),
    };
    let done = Answer::of_line(alloc, &tree.root.to_text())?;
    match write_to(sink, &tree.file) {
        Ok(()) => Ok(done),
        Err(WriteFault) => Answer::of_fault(alloc, Fault::Write),
    }
}

/// The chunk file of the record file that a source has left.
fn tree_of<S: Source>(
    alloc: Global,
    source: &mut S,
    bits: u8,
    version: Version,
) -> Result<Tree, Fault>
    requires { bits ≤ 24 }
    ensures ok { (S.seen source.old).is_honest ≡ true →
        IfOk result (λ tree. MakesFile bits version (S.seen source.old).left
        ((S.seen source.new).failures ≢ (S.seen source.old).failures) tree.file.items tree.root.0) }
    ensures err { (S.seen source.old).is_honest ≡ true →
        IfErr result (λ fault. IsScratchRefusal bits version (S.seen source.old).left
        ((S.seen source.new).failures ≢ (S.seen source.old).failures) fault) }
    ensures read { (S.seen source.new).failures ≢ (S.seen source.old).failures →
        IsErrOf result Fault.Read }
{
    let pairs = pairs_of(alloc, source)?;
    let cut = Sha512Cut::new(bits).unwrap();
    let mut file = Vec::new(alloc);
    match scratch_as(alloc, cut, version, &pairs, LEVEL_LIMIT, &mut file) {
        Ok(root) => Ok(Tree { file, root }),
        Err(ScratchFault::Memory) => Err(Fault::Memory),
        Err(ScratchFault::TooTall) => Err(RunFault::TooTall.into()),
        Err(ScratchFault::OutOfOrder { .. }) => unreachable!(),
    }
}

/// The pairs of the record file that a source has left.
fn pairs_of<S: Source>(alloc: Global, source: &mut S) -> Result<Vec<Pair>, Fault>
    ensures rising { IfOk result (λ pairs. Rising (keys_in pairs.items)) }
    ensures read { (S.seen source.new).failures ≢ (S.seen source.old).failures →
        IsErrOf result Fault.Read }
    ensures ok { (S.seen source.old).is_honest ≡ true →
        IfOk result (λ pairs. HoldsPairs (S.seen source.old).left
        ((S.seen source.new).failures ≢ (S.seen source.old).failures) pairs.items) }
    ensures err { (S.seen source.old).is_honest ≡ true →
        IfErr result (λ fault. IsRecordsFault (S.seen source.old).left
        ((S.seen source.new).failures ≢ (S.seen source.old).failures) fault) }
{
    let input = input_of(alloc, source)?;
    match records(alloc, &input, RECORD_LIMIT) {
        Ok(pairs) => Ok(pairs),
        Err(fault) => Err(run_fault(fault).into()),
    }
}

/// The fault of file 0 that a record fault is.
fn run_fault(fault: RecordFault) -> RunFault
    ensures { result ≡ run_fault fault }
{
    match fault {
        RecordFault::Memory => RunFault::Memory,
        RecordFault::Truncated { place } => RunFault::Truncated { file: 0, place },
        RecordFault::KeyTooLong { place } => RunFault::KeyTooLong { file: 0, place },
        RecordFault::ValueTooLong { place } => RunFault::ValueTooLong { file: 0, place },
        RecordFault::OutOfOrder { place } => RunFault::OutOfOrder { file: 0, place },
        RecordFault::TooManyRecords => RunFault::TooManyRecords { file: 0 },
    }
}

/// Writes bytes to the sink, if there is one.
fn write_to<W: Sink>(sink: &mut Option<W>, bytes: &[u8]) -> Result<(), WriteFault>
    ensures ok { OnOk result (IfSink (TookAll W.seen bytes.now) sink.old sink.new) }
    ensures err { OnErr result (OfSink (TookPart W.seen bytes.now) sink.old sink.new) }
{
    match sink {
        None => Ok(()),
        Some(sink) => write_whole(sink, bytes),
    }
}
