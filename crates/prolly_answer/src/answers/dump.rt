//! The command `dump`: the pairs of a chunk file, as lines or as a record file.
ghost use Rattle.std.specs.Prelude.{◌≡◌, ◌≢◌, ◌⊎◌, true, IfOk, OnOk, IfErr, OnErr};
ghost use Rattle.prolly_look_up.specs.Content.{Content, IsFileOf};
ghost use Rattle.prolly_tree.specs.Difference.{puts};
ghost use Rattle.prolly_answer.specs.Dump.{IsDump, IsDumped, IsStoppedDump};
ghost use Rattle.prolly_answer.specs.LookUps.{ShowsFailedRead};
ghost use Rattle.prolly_answer.specs.Outputs.{IsPart, TookAll, TookUntil};
ghost use Rattle.prolly_text.specs.RecordForms.{written_records};

use crate::lines::write_lines;
use prolly_check::{ChunkHasher, Tree, check_by};
use prolly_fault::{Answer, Fault, INPUT_LIMIT, OutputFault};
use prolly_io::{Sink, Source, WriteFault};
use prolly_text::RecordForm;
use std::alloc::{AllocError, Global};

/// What `dump` answers: it reads a chunk file from the source, writes its pairs to the sink, as
/// records that put them, and shows nothing; or it shows the line of the fault of a file that
/// `check` refuses, and writes nothing.
///
/// The file is checked first, as by `check`. Beside what that takes, a record file takes no memory:
/// the pairs are written from where they lie. The lines of a leaf are put together in memory, and
/// want of it is shown as a fault. Either way the sink is called once for each leaf, or more often
/// where it takes only a part. An `Err` is want of memory for the line of a fault; the sink is then
/// as it was, or has a part of the pairs.
pub fn answer_dump<H: ChunkHasher, S: Source, W: Sink>(
    hasher: &H,
    alloc: Global,
    source: &mut S,
    form: RecordForm,
    sink: &mut W,
) -> Result<Answer, AllocError>
    requires { H.can_hash hasher.now }
    ensures ok { (S.seen source.old).is_honest ≡ true →
        IfOk result (IsDump form (S.seen source.old).left
        ((S.seen source.new).failures ≢ (S.seen source.old).failures)
        (λ bytes. TookAll W.seen bytes sink.old sink.new)
        (λ fault bytes. TookUntil W.seen fault bytes sink.old sink.new)
        (sink.new ≡ sink.old)) }
    ensures err { (S.seen source.old).is_honest ≡ true →
        OnErr result ((sink.new ≡ sink.old) ⊎ IsPart (IsDumped (S.seen source.old).left
        ((S.seen source.new).failures ≢ (S.seen source.old).failures))
        (IsStoppedDump form (λ fault bytes. TookUntil W.seen fault bytes sink.old sink.new))) }
    ensures read { (S.seen source.new).failures ≢ (S.seen source.old).failures →
        (sink.new ≡ sink.old) × IfOk result ShowsFailedRead }
{
    let tree = match check_by(hasher, alloc, source, INPUT_LIMIT) {
        Ok(tree) => tree,
        Err(fault) => return Answer::of_fault(alloc, Fault::Check(fault)),
    };
    match write_pairs(alloc, &tree, form, sink) {
        Ok(()) => Ok(Answer::of_done(alloc)),
        Err(fault) => Answer::of_fault(alloc, Fault::from(fault)),
    }
}

/// Writes the pairs of a tree to a sink, and flushes it.
fn write_pairs<W: Sink>(
    alloc: Global,
    tree: &Tree,
    form: RecordForm,
    sink: &mut W,
) -> Result<(), OutputFault>
    ensures ok { (content : Content) → IsFileOf tree.now content → OnOk result
        (TookAll W.seen (written_records form (puts content.pairs)) sink.old sink.new) }
    ensures err { (content : Content) → IsFileOf tree.now content → IfErr result (λ fault.
        IsStoppedDump form (λ fault bytes. TookUntil W.seen fault bytes sink.old sink.new) fault
        (puts content.pairs)) }
{
    match form {
        RecordForm::Lines(notation) => write_lines(alloc, notation, tree.leaves(), sink),
        RecordForm::Records => match tree.write_records(sink) {
            Ok(()) => Ok(()),
            Err(WriteFault) => Err(OutputFault::Write),
        },
    }
}
