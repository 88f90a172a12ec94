//! Record files out of text, and why a text is not packed. Lines are numbered from 0.
ghost use Rattle.std.specs.Prelude.{◌≡◌, ◌++◌, IfOk, IfErr, OnOk, OnErr};
ghost use Rattle.prolly_text.specs.Lines.{hex_lines};
ghost use Rattle.prolly_text.specs.PackedLines.{IsLineFault, IsLinesFault, IsPackFault, Packs};
ghost use Rattle.prolly_text.specs.PackedLines.{PacksLine, StandsAt};
ghost use Rattle.prolly_text.specs.PackedLines.{fault_at};
ghost use Rattle.std.specs.Prelude.{◌≡◌, Some};

use crate::lines::form::LineForm;
use crate::lines::line::{LineFlaw, is_marked, record_of, split_line};
use crate::notation::Notation;
use prolly_entry::{Record, append_record};
use std::alloc::Global;
use std::fmt;
use std::fmt::{Display, Formatter};
use thiserror::Error;

/// Why a text in hexadecimal is not packed.
#[derive(Clone, Copy, Debug, PartialEq, Eq, Error)]
pub enum PackFault {
    /// Memory was refused.
    Memory,
    /// The line is not a key and a value, or a key and a dash, in hexadecimal with one space
    /// between them.
    BadLine { line: u64 },
    /// The key has more than 1,024 bytes.
    KeyTooLong { line: u64 },
    /// The value has more than 65,536 bytes.
    ValueTooLong { line: u64 },
}

impl Display for PackFault {
    ghost use Rattle.prolly_text.specs.LinesFaults.{pack_text};

    ghost output = { λ fault. Some (pack_text fault) };

    fn fmt<W: fmt::Write>(&self, f: &mut Formatter<W>) -> fmt::Result {
        match self {
            PackFault::Memory => write!(f, "out of memory"),
            PackFault::BadLine { line } => write!(f, "line {line}: not a pair in hexadecimal"),
            PackFault::KeyTooLong { line } => write!(f, "line {line}: key too long"),
            PackFault::ValueTooLong { line } => write!(f, "line {line}: value too long"),
        }
    }
}

/// Why a text in one of the forms of lines is not packed.
#[derive(Clone, Copy, Debug, PartialEq, Eq, Error)]
pub enum LinesFault {
    /// For a reason that a text in hexadecimal may have too.
    Pack(PackFault),
    /// The line is not a key and a value of text with one tab between them, and no key alone where
    /// removals are looked for.
    BadText { line: u64 },
    /// The text begins with a byte order mark. It would be a part of the first key, which is
    /// hardly meant; such a key is written with escapes, `\xEF\xBB\xBF`.
    ByteOrderMark,
}

impl From<PackFault> for LinesFault {
    ghost use Rattle.prolly_text.specs.declared.lines.pack.LinesFault.TheVariants.{Pack};

    ghost from_gives = { λ pack fault. fault ≡ Pack pack };

    fn from(pack: PackFault) -> Self {
        LinesFault::Pack(pack)
    }
}

impl Display for LinesFault {
    ghost use Rattle.prolly_text.specs.LinesFaults.{lines_text};

    ghost output = { λ fault. Some (lines_text fault) };

    fn fmt<W: fmt::Write>(&self, f: &mut Formatter<W>) -> fmt::Result {
        match self {
            LinesFault::Pack(fault) => fault.fmt(f),
            LinesFault::BadText { line } => write!(f, "line {line}: not a pair of text"),
            LinesFault::ByteOrderMark => f.write_str("line 0: begins with a byte order mark"),
        }
    }
}

/// Appends the spellings of the records that the lines of a text in hexadecimal stand for, and
/// answers their number: see [`pack_lines_in`].
pub fn pack_lines(alloc: Global, text: &[u8], out: &mut Vec<u8>) -> Result<u64, PackFault>
    ensures ok { IfOk result (λ count.
        Packs hex_lines text.now out.old.items out.new.items count) }
    ensures err { IfErr result (λ fault. IsPackFault hex_lines text.now fault) }
    ensures unchanged { OnErr result (out.new.items ≡ out.old.items) }
{
    match pack_lines_in(alloc, LineForm::hex(), text, out) {
        Ok(count) => Ok(count),
        Err(LinesFault::Pack(fault)) => Err(fault),
        Err(LinesFault::BadText { .. } | LinesFault::ByteOrderMark) => unreachable!(),
    }
}

/// Appends the spellings of the records that the lines of a text stand for, and answers their
/// number. An `Err` leaves `out` as it was. Whether keys rise is not tested.
///
/// One pass, in time linear in the text.
pub fn pack_lines_in(
    alloc: Global,
    form: LineForm,
    text: &[u8],
    out: &mut Vec<u8>,
) -> Result<u64, LinesFault>
    ensures ok { IfOk result (λ count. Packs form text.now out.old.items out.new.items count) }
    ensures err { IfErr result (λ fault. IsLinesFault form text.now fault) }
    ensures unchanged { OnErr result (out.new.items ≡ out.old.items) }
{
    let start = out.len();
    let mut rest = text;
    let mut count = 0u64;
    while !rest.is_empty() {
        let (line, next) = split_line(rest);
        if let Err(fault) = pack_line(alloc, form, line, count, out) {
            out.truncate(start);
            return Err(fault);
        }
        rest = next;
        count += 1;
    }
    Ok(count)
}

/// Appends the spelling of the record that a line stands for. An `Err` leaves `out` as it was.
fn pack_line(
    alloc: Global,
    form: LineForm,
    line: &[u8],
    number: u64,
    out: &mut Vec<u8>,
) -> Result<(), LinesFault>
    ensures ok { OnOk result (PacksLine form line.now number out.old.items out.new.items) }
    ensures err { IfErr result (λ fault. IsLineFault form line.now number fault) }
    ensures unchanged { OnErr result (out.new.items ≡ out.old.items) }
{
    let record = record_at(alloc, form, line, number)?;
    match append_record(out, &record) {
        Ok(()) => Ok(()),
        Err(_) => Err(PackFault::Memory.into()),
    }
}

/// The record that the line of this number stands for.
pub(crate) fn record_at(
    alloc: Global,
    form: LineForm,
    line: &[u8],
    number: u64,
) -> Result<Record, LinesFault>
    ensures ok { IfOk result (λ r. StandsAt form number line.now r) }
    ensures err { IfErr result (λ fault. IsLineFault form line.now number fault) }
{
    if number == 0 && is_marked(form.notation, line) {
        return Err(LinesFault::ByteOrderMark);
    }
    match record_of(alloc, form, line) {
        Ok(record) => Ok(record),
        Err(flaw) => Err(fault_at(form.notation, flaw, number)),
    }
}

/// The fault that a flaw at a line is.
fn fault_at(notation: Notation, flaw: LineFlaw, line: u64) -> LinesFault
    ensures { result ≡ fault_at notation flaw line }
{
    let fault = match flaw {
        LineFlaw::Memory => PackFault::Memory,
        LineFlaw::Bad => match notation {
            Notation::Hex => PackFault::BadLine { line },
            Notation::Text => return LinesFault::BadText { line },
        },
        LineFlaw::KeyTooLong => PackFault::KeyTooLong { line },
        LineFlaw::ValueTooLong => PackFault::ValueTooLong { line },
    };
    LinesFault::Pack(fault)
}
