//! The command `scan`: pairs from a key on.
ghost use Rattle.std.specs.Prelude.{◌≡◌, ◌-◌, ◌++◌, length, take, IfOk, OnOk};
ghost use Rattle.prolly_text.specs.declared.notation.Notation.TheVariants.{Hex};
ghost use Rattle.prolly_answer.specs.LookUps.{AnswersFailedRead, AnswersLookUp, ShowsScan};
ghost use Rattle.prolly_answer.specs.LookUps.{pair_lines};

use prolly_check::{ChunkHasher, Leaves, OneThread, check_by};
use prolly_fault::{Answer, Fault, INPUT_LIMIT};
use prolly_io::Source;
use prolly_look_up::Pairs;
use prolly_text::{Notation, append_line};
use std::alloc::{AllocError, Global};

/// What `scan` answers: a line of key and value in this notation for each of the first `limit`
/// pairs whose key is not less than `from`; or the line of the fault of a file that `check`
/// refuses. An `Err` is want of memory for the answer's own text.
///
/// The file is checked first, as by `check`. Beside what that takes, memory is taken for the lines
/// alone: they are made from where the pairs lie, leaf by leaf, up to the limit.
pub fn answer_scan_in<H: ChunkHasher, S: Source>(
    hasher: &H,
    alloc: Global,
    source: &mut S,
    from: &[u8],
    limit: u32,
    notation: Notation,
) -> Result<Answer, AllocError>
    requires { H.can_hash hasher.now }
    ensures shown { AnswersLookUp S.seen source.old source.new
        (ShowsScan notation from.now limit) result }
    ensures read { AnswersFailedRead S.seen source.old source.new result }
{
    let tree = match check_by(hasher, alloc, source, INPUT_LIMIT) {
        Ok(tree) => tree,
        Err(fault) => return Answer::of_fault(alloc, Fault::Check(fault)),
    };
    let lines = first_lines(alloc, notation, tree.leaves_from(from), limit)?;
    Ok(Answer::of_lines(alloc, lines))
}

/// What `scan` answers in hexadecimal: see [`answer_scan_in`].
pub fn answer_scan<S: Source>(
    alloc: Global,
    source: &mut S,
    from: &[u8],
    limit: u32,
) -> Result<Answer, AllocError>
    ensures shown { AnswersLookUp S.seen source.old source.new
        (ShowsScan Hex from.now limit) result }
    ensures read { AnswersFailedRead S.seen source.old source.new result }
{
    answer_scan_in(&OneThread, alloc, source, from, limit, Notation::Hex)
}

/// A line for each of the first pairs of the leaves, at most `limit` of them. Asks for no leaf
/// behind the one that has the last of them.
fn first_lines(
    alloc: Global,
    notation: Notation,
    mut leaves: Leaves,
    limit: u32,
) -> Result<Vec<u8>, AllocError>
    ensures { IfOk result (λ lines. lines.items ≡ pair_lines notation (take limit leaves.entry)) }
{
    let mut lines = Vec::new(alloc);
    let mut left = limit;
    while left > 0 {
        let Some(leaf) = leaves.next() else {
            return Ok(lines);
        };
        left = append_first(&mut lines, notation, leaf, left)?;
    }
    Ok(lines)
}

/// Appends a line for each of the first pairs of a leaf, at most `limit` of them. Answers how many
/// more are within the limit.
pub(crate) fn append_first(
    lines: &mut Vec<u8>,
    notation: Notation,
    mut leaf: Pairs,
    limit: u32,
) -> Result<u32, AllocError>
    ensures lines { OnOk result (lines.new.items ≡
        lines.old.items ++ pair_lines notation (take limit leaf.entry)) }
    ensures left { IfOk result (λ left. left ≡ limit - length leaf.entry) }
{
    let mut left = limit;
    while left > 0 {
        let Some((key, value)) = leaf.next() else {
            return Ok(left);
        };
        append_line(lines, notation, key, Some(value))?;
        left -= 1;
    }
    Ok(left)
}
