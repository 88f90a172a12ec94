//! The faulty lines of a text, explained.
#![tactic(auto, using(crate::proofs::Appended::front_kept))]

ghost use Rattle.std.specs.Prelude.{◌≡◌, ◌≢◌, ◌↔◌, ◌+◌, ◌^◌, ◌<◌, ◌≤◌, ◌++◌, true, length, IfOk};
ghost use Rattle.std.specs.Prelude.{IsErrOf, OnOk};
ghost use Rattle.std.specs.Io.{StartsWith};
ghost use Rattle.prolly_text.specs.Appending.{Appends};
ghost use Rattle.prolly_text.specs.FaultyLines.{AreExplained, IsExplained, IsOnward, IsSeen};
ghost use Rattle.prolly_text.specs.FaultyLines.{defect_lines, right_line, right_text, separator_name};
ghost use Rattle.prolly_text.specs.FaultyLines.{place_text, shown_line};

use crate::lines::buffer::{Ahead, LineBuffer, look_ahead, skip_line, sum};
use crate::lines::defect::{Defect, LinePlace, defect_of};
use crate::lines::form::LineForm;
use crate::notation::Notation;
use prolly_io::{Source, WholeFault};
use std::alloc::{AllocError, Global};
use std::fmt;
use std::fmt::{Display, Formatter};

/// How many lines were read, and how many of them stand for no record.
#[derive(Clone, Copy, Debug, PartialEq, Eq)]
pub struct LineCounts {
    pub lines: u64,
    pub faulty: u32,
}

/// Reads lines, and appends to `out` what is wrong with those that stand for no record, three lines
/// each, up to so many of these; then it stops. A line is read as `pack` reads it, and behind a
/// faulty line it goes on with the next one.
///
/// A text of 2^64 bytes and more is told as too long. An `Err` may leave a part of the lines
/// behind. Takes time linear in what is read, and holds one buffer of 324 KiB, however long the
/// text or a line is.
pub fn append_faulty_lines<S: Source>(
    alloc: Global,
    source: &mut S,
    form: LineForm,
    limit: u32,
    out: &mut Vec<u8>,
) -> Result<LineCounts, WholeFault>
    ensures explained { (S.seen source.old).is_honest ≡ true → IfOk result (AreExplained form limit
        (S.seen source.old).left out.old.items out.new.items) }
    ensures too_long { (S.seen source.old).is_honest ≡ true →
        IsErrOf result WholeFault.TooLong → 2 ^ 64 ≤ length (S.seen source.old).left }
    ensures read { IsErrOf result WholeFault.Read ↔
        ((S.seen source.new).failures ≢ (S.seen source.old).failures) }
    ensures unfailed { OnOk result ((S.seen source.new).failures ≡
        (S.seen source.old).failures) }
    ensures never { (S.seen source.old).is_steady ≡ true →
        (S.seen source.new).failures ≡ (S.seen source.old).failures }
    ensures honest { (S.seen source.old).is_honest ≡ true → (S.seen source.new).is_honest ≡ true }
    ensures steady { (S.seen source.old).is_steady ≡ true → (S.seen source.new).is_steady ≡ true }
    ensures kept { StartsWith out.new.items out.old.items }
{
    let mut buffer = LineBuffer::new(alloc)?;
    let mut place = LinePlace {
        number: 0,
        offset: 0,
    };
    let mut faulty = 0;
    while faulty < limit {
        match explain_line(alloc, form, &mut buffer, source, place, out)? {
            Seen::End => {
                return Ok(LineCounts {
                    lines: place.number,
                    faulty,
                });
            }
            Seen::Good { end } => place = place.behind(end),
            Seen::Faulty { end } => {
                place = place.behind(end);
                faulty += 1;
            }
        }
    }
    Ok(LineCounts {
        lines: place.number,
        faulty,
    })
}

/// What was seen of the rest of a text.
#[derive(Clone, Copy)]
pub(crate) enum Seen {
    /// Nothing: it is at its end.
    End,
    /// A line that stands for a record. It ends before this offset.
    Good { end: u64 },
    /// A line that is at fault, and was explained. It ends before this offset.
    Faulty { end: u64 },
}

/// Passes the next line, which stands there, and explains what is wrong with it.
fn explain_line<S: Source>(
    alloc: Global,
    form: LineForm,
    buffer: &mut LineBuffer,
    source: &mut S,
    place: LinePlace,
    out: &mut Vec<u8>,
) -> Result<Seen, WholeFault>
    requires { place.number ≤ place.offset }
    ensures seen { (S.seen source.old).is_honest ≡ true → IfOk result (IsSeen form place
        (buffer.old.unparsed ++ (S.seen source.old).left)
        (buffer.new.unparsed ++ (S.seen source.new).left) out.old.items out.new.items) }
    ensures onward { IfOk result (IsOnward place.offset) }
    ensures too_long { (S.seen source.old).is_honest ≡ true →
        IsErrOf result WholeFault.TooLong →
        2 ^ 64 ≤ place.offset + length (buffer.old.unparsed ++ (S.seen source.old).left) }
    ensures read { IsErrOf result WholeFault.Read ↔
        ((S.seen source.new).failures ≢ (S.seen source.old).failures) }
    ensures unfailed { OnOk result ((S.seen source.new).failures ≡
        (S.seen source.old).failures) }
    ensures never { (S.seen source.old).is_steady ≡ true →
        (S.seen source.new).failures ≡ (S.seen source.old).failures }
    ensures honest { (S.seen source.old).is_honest ≡ true → (S.seen source.new).is_honest ≡ true }
    ensures steady { (S.seen source.old).is_steady ≡ true → (S.seen source.new).is_steady ≡ true }
    ensures kept { StartsWith out.new.items out.old.items }
{
    match look_ahead(buffer, source)? {
        Ahead::End => Ok(Seen::End),
        Ahead::Line { len, size } => {
            let end = sum(place.offset, size as u64)?;
            let seen = explain_held(alloc, form, &buffer.unparsed()[..len], place, end, out)?;
            buffer.consume(size);
            Ok(seen)
        }
        Ahead::TooLong => {
            let held = buffer.unparsed();
            sum(place.offset, held.len() as u64)?;
            append_defect(alloc, out, form.notation, place, held, Defect::LineTooLong)?;
            let size = skip_line(buffer, source)?;
            Ok(Seen::Faulty {
                end: sum(place.offset, size)?,
            })
        }
    }
}

/// Explains what is wrong with a line that is at hand.
fn explain_held(
    alloc: Global,
    form: LineForm,
    line: &[u8],
    place: LinePlace,
    end: u64,
    out: &mut Vec<u8>,
) -> Result<Seen, AllocError>
    requires fits { place.offset + length line.now < 2 ^ 64 }
    requires number { place.number + 1 < 2 ^ 64 }
    ensures explained { IfOk result
        (IsExplained form place line.now end out.old.items out.new.items) }
    ensures kept { StartsWith out.new.items out.old.items }
{
    match defect_of(alloc, form, place, line)? {
        None => Ok(Seen::Good { end }),
        Some(defect) => {
            append_defect(alloc, out, form.notation, place, line, defect)?;
            Ok(Seen::Faulty { end })
        }
    }
}

impl LinePlace {
    /// The place of the line behind this one, which ends before this offset.
    fn behind(self, end: u64) -> LinePlace
        requires { self.number + 1 < 2 ^ 64 }
        ensures { result ≡ record { number = self.number + 1; offset = end } }
    {
        LinePlace {
            number: self.number + 1,
            offset: end,
        }
    }
}

/// How many bytes of a line are shown at most.
const SHOWN_BYTES: usize = 64;

/// What is wrong with a line, to be shown.
#[derive(Clone, Copy)]
struct DefectText(Notation, Defect);

impl Display for DefectText {
    ghost use Rattle.std.specs.Prelude.{Some};
    ghost use Rattle.prolly_text.specs.FaultyLines.{defect_text};

    ghost output = { λ shown. Some (defect_text shown.0 shown.1) };

    #[tactic(auto, unfolding(crate::specs::FaultyLines::defect_text))]
    fn fmt<W: fmt::Write>(&self, f: &mut Formatter<W>) -> fmt::Result {
        let DefectText(notation, defect) = *self;
        let separator = separator_name(notation);
        match defect {
            Defect::ByteOrderMark => f.write_str("begins with a byte order mark"),
            Defect::CarriageReturn { byte } => write!(f, "carriage return at byte {byte}"),
            Defect::NoSeparator => write!(f, "no {separator}"),
            Defect::SecondSeparator { byte } => write!(f, "second {separator} at byte {byte}"),
            Defect::BadEscape { byte } => write!(f, "bad escape at byte {byte}"),
            Defect::BadDigit { byte } => write!(f, "no hexadecimal digit at byte {byte}"),
            Defect::OddDigits { byte } => write!(f, "odd number of digits from byte {byte}"),
            Defect::KeyTooLong { len } => write!(f, "key too long: {len} bytes"),
            Defect::ValueTooLong { len } => write!(f, "value too long: {len} bytes"),
            Defect::LineTooLong => f.write_str("line too long"),
        }
    }
}

/// What the separator is called.
fn separator_name(notation: Notation) -> &'static str
    ensures { result.now ≡ separator_name notation }
{
    match notation {
        Notation::Hex => "space",
        Notation::Text => "tab",
    }
}

/// What would be right in the place of what is wrong.
fn right_text(notation: Notation, defect: Defect) -> &'static str
    ensures { result.now ≡ right_text notation defect }
{
    match (defect, notation) {
        (Defect::ByteOrderMark, _) => {
            "no mark; a key that begins with it is written \\xEF\\xBB\\xBF"
        }
        (Defect::CarriageReturn { .. }, Notation::Hex) => "a newline alone ends a line",
        (Defect::CarriageReturn { .. }, Notation::Text) => {
            "a newline alone ends a line; a carriage return within a key or a value is written \\r"
        }
        (Defect::NoSeparator, Notation::Hex) => "a key, a space, and a value or a dash",
        (Defect::NoSeparator, Notation::Text) => {
            "a key, a tab and a value; with --removals a key alone is its removal"
        }
        (Defect::SecondSeparator { .. }, Notation::Hex) => {
            "one space, between the key and the value"
        }
        (Defect::SecondSeparator { .. }, Notation::Text) => {
            "a tab within a key or a value is written \\t"
        }
        (Defect::BadEscape { .. }, _) => {
            "\\\\ for a backslash, \\b \\t \\n \\v \\f \\r, or \\x and two hexadecimal digits"
        }
        (Defect::BadDigit { .. }, _) => "the digits 0 to 9 and a to f; a dash alone for a removal",
        (Defect::OddDigits { .. }, _) => "two digits a byte",
        (Defect::KeyTooLong { .. }, _) => "at most 1,024 bytes",
        (Defect::ValueTooLong { .. }, _) => "at most 65,536 bytes",
        (Defect::LineTooLong, _) => "a key of at most 1,024 bytes, a value of at most 65,536",
    }
}

/// Appends the lines that explain what is wrong with the line that stands there. An `Err` may leave
/// a part of them behind.
fn append_defect(
    alloc: Global,
    out: &mut Vec<u8>,
    notation: Notation,
    place: LinePlace,
    line: &[u8],
    defect: Defect,
) -> Result<(), AllocError>
    requires { place.number + 1 < 2 ^ 64 }
    ensures { Appends result out.old.items (defect_lines notation place line.now defect)
        out.new.items }
{
    append_place(alloc, out, place.number + 1, place.offset)?;
    let text = DefectText(notation, defect);
    let wrong = format!(in alloc; "{text}\nthe line: ")?;
    out.extend_from_slice(wrong.as_bytes())?;
    append_shown(out, line)?;
    append_right(out, right_text(notation, defect))?;
    Ok(())
}

/// Appends where a line stands: its number from 1, and the offset of its first byte.
fn append_place(
    alloc: Global,
    out: &mut Vec<u8>,
    number: u64,
    offset: u64,
) -> Result<(), AllocError>
    ensures { Appends result out.old.items (place_text number offset) out.new.items }
{
    let stands = format!(in alloc; "line {number} at byte {offset}: ")?;
    out.extend_from_slice(stands.as_bytes())
}

/// Appends what would be right, behind a line that is shown.
fn append_right(out: &mut Vec<u8>, right: &str) -> Result<(), AllocError>
    ensures { Appends result out.old.items (right_line right.now) out.new.items }
{
    out.extend_from_slice(b"\nright: ")?;
    out.extend_from_slice(right.as_bytes())?;
    out.extend_from_slice(b"\n")
}

/// Appends a line as text, or the text of its first bytes. They may part a character; its bytes are
/// then shown as escapes.
fn append_shown(out: &mut Vec<u8>, line: &[u8]) -> Result<(), AllocError>
    ensures { Appends result out.old.items (shown_line line.now) out.new.items }
{
    if line.len() <= SHOWN_BYTES {
        return Notation::Text.append(out, line);
    }
    let (front, _) = line.split_at(SHOWN_BYTES);
    Notation::Text.append(out, front)?;
    out.extend_from_slice(b"...")
}
