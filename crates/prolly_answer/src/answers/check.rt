//! The command `check`: whether a file is a lawful chunk file.
ghost use Rattle.std.specs.Prelude.{◌≡◌, ◌≢◌, ◌∷◌, ◌++◌, [], ℕ, List, true, IfOk};
ghost use Rattle.prolly_look_up.specs.Content.{Content, IsFileOf};
ghost use Rattle.prolly_fault.specs.Answers.{ShowsFault, first_refusal};
ghost use Rattle.prolly_answer.specs.LookUps.{AnswersFailedRead, AnswersLookUp, IsCheckByRoot};
ghost use Rattle.prolly_answer.specs.LookUps.{ShowsCheck, check_text, ok_text};

use prolly_check::{
    CheckFault, ChunkHasher, OneThread, StreamFault, Tree, check_by, check_by_root,
};
use prolly_entry::{Ref, Version};
use prolly_fault::{Answer, Fault, INPUT_LIMIT, append_number};
use prolly_io::Source;
use std::alloc::{AllocError, Global};

/// What `check` answers: `ok`, the text of the root, and the numbers of bits and chunks, where the
/// bytes of the source are the one chunk file of what they say; else the line of the first fault.
/// At most 1,073,741,824 bytes are read. An `Err` is want of memory for the answer's own text.
///
/// Takes time linear in the file, but for an index of the references. The file and its chunks'
/// places are held in memory. It is for `hasher` who takes the hashes.
pub fn answer_check_by<H: ChunkHasher, S: Source>(
    hasher: &H,
    alloc: Global,
    source: &mut S,
) -> Result<Answer, AllocError>
    requires { H.can_hash hasher.now }
    ensures shown { AnswersLookUp S.seen source.old source.new ShowsCheck result }
    ensures read { AnswersFailedRead S.seen source.old source.new result }
{
    let tree = match check_by(hasher, alloc, source, INPUT_LIMIT) {
        Ok(tree) => tree,
        Err(fault) => return Answer::of_fault(alloc, Fault::Check(fault)),
    };
    let line = line_of(alloc, &tree)?;
    Answer::of_line(alloc, &line)
}

/// What `check` answers where one thread takes the hashes: see [`answer_check_by`].
pub fn answer_check<S: Source>(alloc: Global, source: &mut S) -> Result<Answer, AllocError>
    ensures shown { AnswersLookUp S.seen source.old source.new ShowsCheck result }
    ensures read { AnswersFailedRead S.seen source.old source.new result }
{
    answer_check_by(&OneThread, alloc, source)
}

/// What `check` answers to who names the root: the same line as [`answer_check_by`], where the bytes
/// of the source are the chunk file of a map whose root this is, of this version; else the line of
/// the first flaw in the order of the bytes, or of another root. The source may have any size: see
/// [`check_by_root`]. An `Err` is want of memory for the answer's own text.
pub fn answer_check_by_root<H: ChunkHasher, S: Source>(
    hasher: &H,
    alloc: Global,
    source: &mut S,
    version: Version,
    root: &Ref,
) -> Result<Answer, AllocError>
    requires { H.can_hash hasher.now }
    ensures shown { (S.seen source.old).is_honest ≡ true → IfOk result (IsCheckByRoot version
        root.now.0 (S.seen source.old).left
        ((S.seen source.new).failures ≢ (S.seen source.old).failures)) }
    ensures read { (S.seen source.new).failures ≢ (S.seen source.old).failures →
        IfOk result (λ answer. ShowsFault answer (Fault.Stream (StreamFault.Check
        CheckFault.Read))) }
{
    let report = match check_by_root(hasher, alloc, source, version, root) {
        Ok(report) => report,
        Err(fault) => return Answer::of_fault(alloc, Fault::Stream(fault)),
    };
    let line = text_of(alloc, root, report.bits, report.chunks)?;
    Answer::of_line(alloc, &line)
}

/// The status of a `check` of several files, of which one more was answered: that of the first
/// refusal. `status` is that of the files before, and 0 where there are none.
pub fn status_behind(status: u8, answer: &Answer) -> u8
    ensures { (before : List ℕ) → status ≡ first_refusal before →
        result ≡ first_refusal (before ++ answer.now.status ∷ []) }
{
    if status == 0 { answer.status } else { status }
}

fn line_of(alloc: Global, tree: &Tree) -> Result<Vec<u8>, AllocError>
    ensures { IfOk result (λ line. (content : Content) → IsFileOf tree.now content →
        line.items ≡ check_text content) }
{
    text_of(alloc, &tree.root(), tree.bits(), tree.chunks())
}

/// The line of a lawful file with this root, and so many bits and chunks.
fn text_of(alloc: Global, root: &Ref, bits: u8, chunks: u64) -> Result<Vec<u8>, AllocError>
    ensures { IfOk result (λ line. line.items ≡ ok_text root.now.0 bits chunks) }
{
    let mut line = Vec::new(alloc);
    line.extend_from_slice(b"ok ")?;
    line.extend_from_slice(&root.to_text())?;
    append_number(alloc, &mut line, u64::from(bits))?;
    append_number(alloc, &mut line, chunks)?;
    Ok(line)
}
