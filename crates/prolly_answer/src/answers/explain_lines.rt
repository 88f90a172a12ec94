//! The command `explain --lines`: where and why lines stand for no record.
ghost use Rattle.prolly_answer.specs.ExplainedLines.{AnswersLines, ShowsCounts, limit_of};
ghost use Rattle.prolly_answer.specs.Surveys.{AnswersUnread};
ghost use Rattle.std.specs.Prelude.{◌≡◌, IfOk};

use prolly_fault::{Answer, Fault, append_number};
use prolly_io::{Source, WholeFault};
use prolly_text::{LineCounts, LineForm, append_faulty_lines};
use std::alloc::{AllocError, Global};

/// How many faulty lines are explained where all are asked for.
const FAULTY_LIMIT: u32 = 100;

/// What `explain --lines` answers of lines in this form: `ok` and their number where each stands
/// for a record. Else, with status 1, it explains the first that does not, or with `all` each of
/// these up to a hundred, and then it says that there may be more. A failed read is told. An `Err`
/// is want of memory.
///
/// One pass, in time linear in the text, and in memory that does not grow with it. Without `all`
/// it stops at the first faulty line.
pub fn answer_explain_lines<S: Source>(
    alloc: Global,
    source: &mut S,
    form: LineForm,
    all: bool,
) -> Result<Answer, AllocError>
    ensures shown { AnswersLines S.seen source.old source.new form all result }
    ensures read { AnswersUnread S.seen source.old source.new result }
{
    let mut out = Vec::new(alloc);
    match append_faulty_lines(alloc, source, form, limit_of(all), &mut out) {
        Ok(counts) => counts_answer(alloc, counts, out),
        Err(WholeFault::Memory) => Err(AllocError),
        Err(WholeFault::Read) => Answer::of_fault(alloc, Fault::Read),
        Err(WholeFault::TooLong) => Answer::of_fault(alloc, Fault::InputTooLong),
    }
}

/// How many faulty lines are explained.
fn limit_of(all: bool) -> u32
    ensures { result ≡ limit_of all }
{
    if all { FAULTY_LIMIT } else { 1 }
}

/// The answer of lines of which so many are at fault, whose explanations these are.
fn counts_answer(alloc: Global, counts: LineCounts, mut out: Vec<u8>) -> Result<Answer, AllocError>
    ensures { IfOk result (λ answer. ShowsCounts answer counts.lines counts.faulty out.items) }
{
    if counts.faulty == 0 {
        let mut line = Vec::new(alloc);
        line.extend_from_slice(b"ok")?;
        append_number(alloc, &mut line, counts.lines)?;
        return Answer::of_line(alloc, &line);
    }
    if counts.faulty == FAULTY_LIMIT {
        out.extend_from_slice(b"there may be more\n")?;
    }
    Ok(Answer {
        status: 1,
        out,
        err: Vec::new(alloc),
    })
}
