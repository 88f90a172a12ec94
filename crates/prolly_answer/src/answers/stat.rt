//! What `stat` answers.
ghost use Rattle.prolly_answer.specs.Stat.{AnswersBadRead, AnswersOf, AnswersStat, ShowsTree};
ghost use Rattle.prolly_answer.specs.Stat.{tree_text, ShowsRecords, ShowsSurvey, records_text};
ghost use Rattle.std.specs.Prelude.{◌≡◌, ◌++◌, IfOk, OnOk};
ghost use Rattle.prolly_look_up.specs.Content.{Content, IsFileOf};
ghost use Rattle.std.specs.Option.{option_copied};
ghost use Rattle.prolly_load.specs.Survey.{key_bytes};
ghost use Rattle.prolly_answer.specs.Surveys.{AreOfSurvey};

use crate::input::RECORD_LIMIT;
use prolly_check::{ChunkHasher, Tree, check_by};
use prolly_fault::{Answer, Fault, INPUT_LIMIT};
use prolly_io::{ReadFault, Rejoined, Source, take_front};
use prolly_load::{Survey, fault_of, survey};
use prolly_text::{
    Notation, RecordNumbers, TreeNumbers, append_json, append_records, append_records_json,
    append_table,
};
use std::alloc::{AllocError, Global};

/// The letters with which each chunk file begins. A record file that began so would have a key of
/// 20,562 bytes, and none has one of more than 1,024.
const LETTERS: &[u8] = b"PRLY";

/// What `stat` gives back.
#[derive(Drop)]
pub struct Stated<S> {
    /// The source, as the reads left it.
    pub source: S,
    /// The answer. An `Err` is want of memory for the numbers or for the answer's own text.
    pub answer: Result<Answer, AllocError>,
}

/// What `stat` answers: in this form the numbers of a file that begins with the letters of a chunk
/// file and is one, or of a good record file; and else the line of the fault. At most 1,073,741,824
/// bytes are read of a chunk file.
///
/// A chunk file is checked first, as by `check`, and held in memory. A record file is gone over
/// once, in memory that does not grow with it.
pub fn answer_stat<H: ChunkHasher, S: Source>(
    hasher: &H,
    alloc: Global,
    mut source: S,
    form: StatForm,
) -> Stated<S>
    requires { H.can_hash hasher.now }
    ensures shown { AnswersStat S.seen source result.source form result.answer }
    ensures read { AnswersBadRead S.seen source result.source result.answer }
{
    let mut front = [0; 4];
    let Ok(count) = take_front(&mut source, &mut front) else {
        let answer = Answer::of_fault(alloc, Fault::Read);
        return Stated { source, answer };
    };
    let front = &front[..count];
    let is_chunk_file = front == LETTERS;
    let Ok(front) = front.to_vec(alloc) else {
        let answer = Err(AllocError);
        return Stated { source, answer };
    };
    let mut whole = Rejoined::new(front, source);
    let answer = whole_answer(hasher, alloc, is_chunk_file, &mut whole, form);
    Stated {
        source: whole.into_rest(),
        answer,
    }
}

/// The numbers of a file of this kind.
fn whole_answer<H: ChunkHasher, S: Source>(
    hasher: &H,
    alloc: Global,
    is_chunk_file: bool,
    source: &mut S,
    form: StatForm,
) -> Result<Answer, AllocError>
    requires { H.can_hash hasher.now }
    ensures shown { AnswersOf is_chunk_file S.seen source.old source.new form result }
    ensures read { AnswersBadRead S.seen source.old source.new result }
{
    if is_chunk_file {
        return match check_by(hasher, alloc, source, INPUT_LIMIT) {
            Ok(tree) => tree_answer(alloc, &tree, form),
            Err(fault) => Answer::of_fault(alloc, Fault::Check(fault)),
        };
    }
    match survey(alloc, source, RECORD_LIMIT) {
        Ok(survey) => survey_answer(alloc, &survey, form),
        Err(ReadFault::Memory) => Err(AllocError),
        Err(ReadFault::Read) => Answer::of_fault(alloc, Fault::Read),
    }
}

/// The numbers of a chunk file.
pub(crate) fn tree_answer(alloc: Global, tree: &Tree, form: StatForm) -> Result<Answer, AllocError>
    ensures { IfOk result (λ answer. (content : Content) → IsFileOf tree.now content →
        ShowsTree form answer content) }
{
    let root = tree.root().to_text();
    let levels = tree.levels(alloc)?;
    let numbers = TreeNumbers {
        root: &root,
        version: tree.version(),
        bits: tree.bits(),
        pairs: tree.pairs(),
        chunks: tree.chunks(),
        bytes: tree.size(),
        levels: &levels,
    };
    let mut out = Vec::new(alloc);
    append_tree(alloc, &mut out, form, &numbers)?;
    Ok(Answer::of_lines(alloc, out))
}

fn append_tree(
    alloc: Global,
    out: &mut Vec<u8>,
    form: StatForm,
    numbers: &TreeNumbers<'_>,
) -> Result<(), AllocError>
    ensures { OnOk result (out.new.items ≡ out.old.items ++ tree_text form numbers.now) }
{
    match form {
        StatForm::Lines(_) => append_table(alloc, out, numbers),
        StatForm::Json => append_json(alloc, out, numbers),
    }
}

/// The numbers of a record file, or else its flaw.
pub(crate) fn survey_answer(
    alloc: Global,
    survey: &Survey,
    form: StatForm,
) -> Result<Answer, AllocError>
    ensures { IfOk result (λ answer. ShowsRecords form answer survey.now) }
{
    match &survey.flawed {
        None => of_records(alloc, survey, form),
        Some(flawed) => {
            Answer::of_fault(alloc, Fault::Run(fault_of(0, survey.records, flawed.flaw)))
        }
    }
}

fn of_records(alloc: Global, survey: &Survey, form: StatForm) -> Result<Answer, AllocError>
    ensures { IfOk result (λ answer. ShowsSurvey form answer survey.now) }
{
    let lines = lines_of(alloc, form, &numbers_of(survey))?;
    Ok(Answer::of_lines(alloc, lines))
}

fn lines_of(alloc: Global, form: StatForm, numbers: &RecordNumbers) -> Result<Vec<u8>, AllocError>
    ensures { IfOk result (λ lines. lines.items ≡ records_text form numbers.now) }
{
    let mut lines = Vec::new(alloc);
    match form {
        StatForm::Lines(notation) => {
            append_records(alloc, &mut lines, notation, numbers)?;
            Ok(lines)
        }
        StatForm::Json => {
            append_records_json(alloc, &mut lines, numbers)?;
            Ok(lines)
        }
    }
}

/// What is good of a record file, in numbers.
pub(crate) fn numbers_of(survey: &Survey) -> RecordNumbers<'_>
    ensures { AreOfSurvey survey.now result }
{
    RecordNumbers {
        records: survey.records,
        removals: survey.removals,
        bytes: survey.bytes,
        first_key: survey.first_key.as_deref(),
        last_key: survey.last_key.as_deref(),
    }
}

/// How `stat` shows the numbers of a file.
#[derive(Clone, Copy)]
pub enum StatForm {
    /// As lines and, of a chunk file, a table; the keys of a record file in this notation.
    Lines(Notation),
    /// As one line of JSON, with keys in hexadecimal.
    Json,
}
