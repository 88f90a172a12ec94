//! The command `explain`: where and why a record file is not good.
ghost use Rattle.std.specs.Prelude.{◌≡◌, IfOk};
ghost use Rattle.prolly_answer.specs.Surveys.{AnswersSurvey, AnswersUnread, ShowsExplanation};
ghost use Rattle.prolly_answer.specs.Surveys.{ShowsFlaw, good_text};

use crate::answers::stat::numbers_of;
use crate::input::RECORD_LIMIT;
use prolly_fault::{Answer, Fault, append_number};
use prolly_io::{ReadFault, Source};
use prolly_load::{FlawedRecord, Survey, survey};
use prolly_text::{Notation, append_flaw};
use std::alloc::{AllocError, Global};

/// What `explain` answers: `ok` and the number of records of a record file that is good, and else,
/// with status 1, the place and the offset of the first flawed record, its flaw, its key, where the
/// flaw lies behind that, and the key before it, in this notation; or the line of a failed read. An
/// `Err` is want of memory, for the survey or for the answer's own text.
///
/// One pass, in time linear in the file, and in memory that does not grow with it.
pub fn answer_explain<S: Source>(
    alloc: Global,
    source: &mut S,
    notation: Notation,
) -> Result<Answer, AllocError>
    ensures shown { AnswersSurvey S.seen source.old source.new (ShowsExplanation notation) result }
    ensures read { AnswersUnread S.seen source.old source.new result }
{
    match survey(alloc, source, RECORD_LIMIT) {
        Ok(survey) => reason(alloc, notation, &survey),
        Err(ReadFault::Memory) => Err(AllocError),
        Err(ReadFault::Read) => Answer::of_fault(alloc, Fault::Read),
    }
}

fn reason(alloc: Global, notation: Notation, survey: &Survey) -> Result<Answer, AllocError>
    ensures { IfOk result (λ answer. ShowsExplanation notation answer survey.now) }
{
    match &survey.flawed {
        None => {
            let line = good_line(alloc, survey)?;
            Answer::of_line(alloc, &line)
        }
        Some(flawed) => flaw_answer(alloc, notation, survey, flawed),
    }
}

fn good_line(alloc: Global, survey: &Survey) -> Result<Vec<u8>, AllocError>
    ensures { IfOk result (λ line. line.items ≡ good_text survey.now) }
{
    let mut line = Vec::new(alloc);
    line.extend_from_slice(b"ok")?;
    append_number(alloc, &mut line, u64::from(survey.records))?;
    Ok(line)
}

fn flaw_answer(
    alloc: Global,
    notation: Notation,
    survey: &Survey,
    flawed: &FlawedRecord,
) -> Result<Answer, AllocError>
    ensures { IfOk result (λ answer. ShowsFlaw notation answer survey.now flawed.now) }
{
    let mut out = Vec::new(alloc);
    let good = numbers_of(survey);
    let key = flawed.key.as_deref();
    append_flaw(alloc, &mut out, notation, &good, flawed.flaw, key)?;
    Ok(Answer {
        status: 1,
        out,
        err: Vec::new(alloc),
    })
}
