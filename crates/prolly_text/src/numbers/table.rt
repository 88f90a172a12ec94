//! The numbers of a tree, and the table of them.
ghost use Rattle.std.specs.Prelude.{◌≡◌, ◌++◌, OnOk, ◌<◌, Some, length, slice_get};
ghost use Rattle.prolly_text.specs.Appending.{Appends};
ghost use Rattle.prolly_text.specs.Table.{bar, head_of, row_line, table_of};
ghost use Rattle.prolly_text.specs.Rows.{rows_of};

use crate::numbers::records::append_number_line;
use prolly_chunk::LevelStats;
use prolly_entry::Version;
use std::alloc::{AllocError, Global};

/// The names of the columns, each above the end of its numbers.
const HEADING: &[u8] =
    b"level      chunks     entries         bytes       least      middle    greatest\n";

/// Appends the table of a tree: its numbers, a line each, and then a line for each level, from the
/// root's to the leaves'. An `Err` may leave a part of it behind.
pub fn append_table(alloc: Global, out: &mut Vec<u8>, tree: &TreeNumbers) -> Result<(), AllocError>
    ensures { Appends result out.old.items (table_of tree.now) out.new.items }
{
    append_head(alloc, out, tree)?;
    out.extend_from_slice(HEADING)?;
    for number in (0..tree.levels.len()).rev() {
        append_row(alloc, out, &row_at(tree, number))?;
    }
    Ok(())
}

/// Appends the lines of the tree's numbers.
#[tactic(auto, using(crate::proofs::Appended::front_kept), unfolding(crate::specs::Table::head_of))]
fn append_head(alloc: Global, out: &mut Vec<u8>, tree: &TreeNumbers) -> Result<(), AllocError>
    ensures { Appends result out.old.items (head_of tree.now) out.new.items }
{
    out.extend_from_slice(b"root ")?;
    out.extend_from_slice(tree.root)?;
    out.push(b'\n')?;
    append_number_line(alloc, out, b"format", u64::from(tree.version.to_byte()))?;
    append_number_line(alloc, out, b"bits", u64::from(tree.bits))?;
    append_number_line(alloc, out, b"pairs", tree.pairs)?;
    append_number_line(alloc, out, b"chunks", tree.chunks)?;
    append_number_line(alloc, out, b"bytes", tree.bytes)?;
    Ok(())
}

/// Appends the line of a level.
fn append_row(alloc: Global, out: &mut Vec<u8>, row: &Row) -> Result<(), AllocError>
    ensures { Appends result out.old.items (row_line row.now) out.new.items }
{
    let Row {
        number,
        entries,
        level,
    } = *row;
    let LevelStats {
        chunks,
        bytes,
        least,
        middle,
        greatest,
    } = level;
    let columns = format!(in alloc;
        "{number:>5}{chunks:>12}{entries:>12}{bytes:>14}{least:>12}{middle:>12}{greatest:>12}  "
    )?;
    out.extend_from_slice(columns.as_bytes())?;
    append_bar(alloc, out, chunks)?;
    out.push(b'\n')?;
    Ok(())
}

/// Appends a bar as long as the number has binary digits, so that it grows by one where the number
/// doubles.
fn append_bar(alloc: Global, out: &mut Vec<u8>, number: u64) -> Result<(), AllocError>
    ensures { Appends result out.old.items (bar number) out.new.items }
{
    let digits = format!(in alloc; "{number:b}")?;
    for _digit in digits.as_bytes() {
        out.push(b'#')?;
    }
    Ok(())
}

/// A level with its number, which is 0 for the leaves, and its entries.
#[derive(Clone, Copy)]
pub(crate) struct Row {
    pub(crate) number: usize,
    pub(crate) entries: u64,
    pub(crate) level: LevelStats,
}

/// The row of the level of this number.
pub(crate) fn row_at(tree: &TreeNumbers, number: usize) -> Row
    requires { number < length tree.now.levels.now }
    ensures { slice_get (rows_of tree.now) number ≡ Some result }
{
    let entries = if number == 0 {
        tree.pairs
    } else {
        tree.levels[number - 1].chunks
    };
    Row {
        number,
        entries,
        level: tree.levels[number],
    }
}

/// A chunk file, in numbers.
#[derive(Clone, Copy)]
pub struct TreeNumbers<'a> {
    /// The text of the root's reference, 32 characters.
    pub root: &'a [u8],
    /// The version of the file.
    pub version: Version,
    /// The bits of the cut: one entry in 2 to this power ends a chunk.
    pub bits: u8,
    /// How many pairs the map has.
    pub pairs: u64,
    /// How many chunks the levels have, together.
    pub chunks: u64,
    /// The sizes of all chunks, together.
    pub bytes: u64,
    /// The levels, from the leaves to the root's.
    pub levels: &'a [LevelStats],
}
