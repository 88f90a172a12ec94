//! The command `pack`: a record file out of text.
ghost use Rattle.std.specs.Prelude.{◌≡◌, ◌≢◌, true, [], IfOk, IfErr, OnOk, IsErrOf};
ghost use Rattle.prolly_answer.specs.Input.{IsReadWhole};
ghost use Rattle.prolly_text.specs.Lines.{hex_lines};
ghost use Rattle.prolly_text.specs.PackedLines.{Packs};
ghost use Rattle.prolly_answer.specs.Pack.{AnswersPack, IsPackingFault, LeavesPack};
ghost use Rattle.prolly_answer.specs.Pack.{TellsPackRead};

use crate::input::input_of;
use prolly_fault::{Answer, Fault};
use prolly_io::{Sink, Source, WriteFault, write_whole};
use prolly_text::{LineForm, pack_lines_in};
use std::alloc::{AllocError, Global};

/// A record file, and the number of its records.
#[derive(Drop)]
struct Packed {
    file: Vec<u8>,
    count: u64,
}

/// What `pack` answers: it reads lines in this form from the source, writes the records that they
/// stand for to the sink, and shows their number. Whether keys rise is not tested.
///
/// The sink is written to only once all else is done. An `Err` is want of memory for the answer's
/// own text; the sink is then as it was, or it failed.
///
/// Takes time linear in the text, and holds the text and the record file in memory.
pub fn answer_pack_in<S: Source, W: Sink>(
    alloc: Global,
    source: &mut S,
    sink: &mut W,
    form: LineForm,
) -> Result<Answer, AllocError>
    ensures ok { AnswersPack S.seen W.seen form source.old source.new sink.old sink.new result }
    ensures err { LeavesPack S.seen W.seen form source.old source.new sink.old sink.new result }
    ensures read { TellsPackRead S.seen source.old source.new sink.old sink.new result }
{
    let packed = match packed_of(alloc, source, form) {
        Ok(packed) => packed,
        Err(fault) => return Answer::of_fault(alloc, fault),
    };
    let count = packed.count;
    let line = format!(in alloc; "{count}")?;
    let done = Answer::of_line(alloc, line.as_bytes())?;
    match write_whole(sink, &packed.file) {
        Ok(()) => Ok(done),
        Err(WriteFault) => Answer::of_fault(alloc, Fault::Write),
    }
}

/// What `pack` answers to lines in hexadecimal: see [`answer_pack_in`].
pub fn answer_pack<S: Source, W: Sink>(
    alloc: Global,
    source: &mut S,
    sink: &mut W,
) -> Result<Answer, AllocError>
    ensures ok { AnswersPack S.seen W.seen hex_lines source.old source.new sink.old sink.new
        result }
    ensures err { LeavesPack S.seen W.seen hex_lines source.old source.new sink.old sink.new
        result }
    ensures read { TellsPackRead S.seen source.old source.new sink.old sink.new result }
{
    answer_pack_in(alloc, source, sink, LineForm::hex())
}

/// The record file of the lines that a source has left.
fn packed_of<S: Source>(alloc: Global, source: &mut S, form: LineForm) -> Result<Packed, Fault>
    ensures whole { (S.seen source.old).is_honest ≡ true →
        OnOk result (IsReadWhole (S.seen source.old).left
        ((S.seen source.new).failures ≢ (S.seen source.old).failures)) }
    ensures ok { (S.seen source.old).is_honest ≡ true →
        IfOk result (λ packed.
        Packs form (S.seen source.old).left [] packed.file.items packed.count) }
    ensures err { (S.seen source.old).is_honest ≡ true →
        IfErr result (λ fault. IsPackingFault form (S.seen source.old).left
        ((S.seen source.new).failures ≢ (S.seen source.old).failures) fault) }
    ensures read { (S.seen source.new).failures ≢ (S.seen source.old).failures →
        IsErrOf result Fault.Read }
{
    let text = input_of(alloc, source)?;
    let mut file = Vec::new(alloc);
    let count = pack_lines_in(alloc, form, &text, &mut file)?;
    Ok(Packed { file, count })
}
