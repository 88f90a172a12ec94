//! Lines that are written.
ghost use Rattle.std.specs.Prelude.{◌≡◌, ◌++◌, ◌∷◌, OnOk, IfErr};
ghost use Rattle.prolly_text.specs.Notations.{separator, written};
ghost use Rattle.prolly_answer.specs.LookUps.{pair_lines};
ghost use Rattle.prolly_answer.specs.Outputs.{TookAll, TookUntil};

use prolly_check::Leaves;
use prolly_fault::OutputFault;
use prolly_io::{Sink, write_all};
use prolly_look_up::Pairs;
use prolly_text::{Notation, append_line};
use std::alloc::{AllocError, Global};

/// Appends a key and its value, with a separator between them.
pub(crate) fn append_pair_text(
    line: &mut Vec<u8>,
    notation: Notation,
    key: &[u8],
    value: &[u8],
) -> Result<(), AllocError>
    ensures { OnOk result (line.new.items ≡ line.old.items ++ written notation
        key.now ++ separator notation ∷ written notation value.now) }
{
    notation.append(line, key)?;
    line.push(notation.separator())?;
    notation.append(line, value)
}

/// Writes a line for each pair of the leaves to a sink, and flushes it.
///
/// The lines of a leaf are put together in memory, and written in a call of the sink.
pub(crate) fn write_lines<W: Sink>(
    alloc: Global,
    notation: Notation,
    mut leaves: Leaves,
    sink: &mut W,
) -> Result<(), OutputFault>
    ensures ok { OnOk result
        (TookAll W.seen (pair_lines notation leaves.entry) sink.old sink.new) }
    ensures err { IfErr result (λ fault.
        TookUntil W.seen fault (pair_lines notation leaves.entry) sink.old sink.new) }
{
    let mut lines = Vec::new(alloc);
    while let Some(leaf) = leaves.next() {
        lines.clear();
        append_lines(&mut lines, notation, leaf)?;
        write_all(sink, &lines)?;
    }
    sink.flush()?;
    Ok(())
}

/// Appends a line for each of the pairs.
pub(crate) fn append_lines(
    lines: &mut Vec<u8>,
    notation: Notation,
    mut pairs: Pairs,
) -> Result<(), AllocError>
    ensures { OnOk result (lines.new.items ≡ lines.old.items ++ pair_lines notation pairs.entry) }
{
    while let Some((key, value)) = pairs.next() {
        append_line(lines, notation, key, Some(value))?;
    }
    Ok(())
}
