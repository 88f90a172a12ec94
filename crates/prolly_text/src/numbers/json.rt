//! JSON, as RFC 8259 has it, of a tree and of a record file.
ghost use Rattle.std.specs.Prelude.{◌≡◌, [], ◌∷◌, ◌++◌, OnOk, map};
ghost use Rattle.std.specs.Fmt.{decimal};
ghost use Rattle.std.specs.List.{flat_map};
ghost use Rattle.std.specs.Option.{option_copied};
ghost use Rattle.prolly_text.specs.Appending.{Appends};
ghost use Rattle.prolly_text.specs.Json.{member, quoted, array, comma_before, json_of, level_json};
ghost use Rattle.prolly_text.specs.Json.{behind_comma, key_member, records_json_of};
ghost use Rattle.prolly_text.specs.Rows.{rows_of};

use crate::notation::Notation;
use crate::numbers::records::RecordNumbers;
use crate::numbers::table::{Row, TreeNumbers, row_at};
use std::alloc::{AllocError, Global};

/// Appends a byte, and the member of an object that is a number.
pub(crate) fn append_number_member(
    alloc: Global,
    out: &mut Vec<u8>,
    before: u8,
    name: &[u8],
    number: u64,
) -> Result<(), AllocError>
    ensures { Appends result out.old.items (before ∷ member name.now (decimal number))
        out.new.items }
{
    append_member_name(out, before, name)?;
    let text = format!(in alloc; "{number}")?;
    out.extend_from_slice(text.as_bytes())?;
    Ok(())
}

/// Appends a byte, and the member of an object that is a string, which needs no escape.
pub(crate) fn append_string_member(
    out: &mut Vec<u8>,
    before: u8,
    name: &[u8],
    text: &[u8],
) -> Result<(), AllocError>
    ensures { Appends result out.old.items (before ∷ member name.now (quoted text.now))
        out.new.items }
{
    append_member_name(out, before, name)?;
    out.push(b'"')?;
    out.extend_from_slice(text)?;
    out.push(b'"')?;
    Ok(())
}

/// Appends a byte, a member's name and a colon.
pub(crate) fn append_member_name(
    out: &mut Vec<u8>,
    before: u8,
    name: &[u8],
) -> Result<(), AllocError>
    ensures { Appends result out.old.items (before ∷ quoted name.now ++ 0x3A ∷ []) out.new.items }
{
    out.extend_from_slice(&[before, b'"'])?;
    out.extend_from_slice(name)?;
    out.extend_from_slice(b"\":")?;
    Ok(())
}

/// Appends a tree as one line of JSON: what the table tells, with the levels from the leaves up.
/// The text of a reference needs no escape, so where the root is one, the line is JSON. An `Err`
/// may leave a part of it behind.
pub fn append_json(alloc: Global, out: &mut Vec<u8>, tree: &TreeNumbers) -> Result<(), AllocError>
    ensures { Appends result out.old.items (json_of tree.now) out.new.items }
{
    let format = u64::from(tree.version.to_byte());
    append_string_member(out, b'{', b"root", tree.root)?;
    append_number_member(alloc, out, b',', b"format", format)?;
    append_number_member(alloc, out, b',', b"bits", u64::from(tree.bits))?;
    append_number_member(alloc, out, b',', b"pairs", tree.pairs)?;
    append_number_member(alloc, out, b',', b"chunks", tree.chunks)?;
    append_number_member(alloc, out, b',', b"bytes", tree.bytes)?;
    append_member_name(out, b',', b"levels")?;
    append_levels(alloc, out, tree)?;
    out.extend_from_slice(b"}\n")?;
    Ok(())
}

/// Appends the array of the levels, from the leaves up.
fn append_levels(alloc: Global, out: &mut Vec<u8>, tree: &TreeNumbers) -> Result<(), AllocError>
    ensures { Appends result out.old.items (array (map level_json (rows_of tree.now)))
        out.new.items }
{
    out.push(b'[')?;
    for number in 0..tree.levels.len() {
        append_comma(out, number)?;
        append_level(alloc, out, &row_at(tree, number))?;
    }
    out.push(b']')?;
    Ok(())
}

/// Appends what stands before the value of this number in an array: a comma, but for the first.
fn append_comma(out: &mut Vec<u8>, number: usize) -> Result<(), AllocError>
    ensures { Appends result out.old.items (comma_before number) out.new.items }
{
    if number > 0 {
        out.push(b',')?;
    }
    Ok(())
}

/// Appends a level.
fn append_level(alloc: Global, out: &mut Vec<u8>, row: &Row) -> Result<(), AllocError>
    ensures { Appends result out.old.items (level_json row.now) out.new.items }
{
    append_number_member(alloc, out, b'{', b"level", row.number as u64)?;
    append_number_member(alloc, out, b',', b"chunks", row.level.chunks)?;
    append_number_member(alloc, out, b',', b"entries", row.entries)?;
    append_number_member(alloc, out, b',', b"bytes", row.level.bytes)?;
    append_number_member(alloc, out, b',', b"least", row.level.least)?;
    append_number_member(alloc, out, b',', b"middle", row.level.middle)?;
    append_number_member(alloc, out, b',', b"greatest", row.level.greatest)?;
    out.push(b'}')?;
    Ok(())
}

/// Appends a record file as one line of JSON, its keys in hexadecimal. An `Err` may leave a part of
/// it behind.
pub fn append_records_json(
    alloc: Global,
    out: &mut Vec<u8>,
    numbers: &RecordNumbers,
) -> Result<(), AllocError>
    ensures { Appends result out.old.items (records_json_of numbers.now) out.new.items }
{
    append_number_member(alloc, out, b'{', b"records", u64::from(numbers.records))?;
    append_number_member(alloc, out, b',', b"removals", u64::from(numbers.removals))?;
    append_number_member(alloc, out, b',', b"bytes", numbers.bytes)?;
    append_key_member(alloc, out, b"first", numbers.first_key)?;
    append_key_member(alloc, out, b"last", numbers.last_key)?;
    out.extend_from_slice(b"}\n")?;
    Ok(())
}

/// Appends a comma and the member of a key, if there is one.
fn append_key_member(
    alloc: Global,
    out: &mut Vec<u8>,
    name: &[u8],
    key: Option<&[u8]>,
) -> Result<(), AllocError>
    ensures { Appends result out.old.items (flat_map behind_comma
        (key_member name.now (option_copied key.entry))) out.new.items }
{
    let Some(key) = key else {
        return Ok(());
    };
    let mut digits = Vec::new(alloc);
    Notation::Hex.append(&mut digits, key)?;
    append_string_member(out, b',', name, &digits)
}
