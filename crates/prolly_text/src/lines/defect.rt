//! What is wrong with a line that stands for no record.
ghost use Rattle.std.specs.Char.{is_ascii_hexdigit};
ghost use Rattle.std.specs.Prelude.{◌≡◌, ◌≢◌, ◌+◌, ◌^◌, ◌<◌, ◌≤◌, true, false, All, length, take};
ghost use Rattle.std.specs.Prelude.{IfOk, IfSome, IfNone, slice_index};
ghost use Rattle.std.specs.List.{AllByRecursion};
ghost use Rattle.prolly_text.specs.Defects.{HasDefect, IsPartDefect, IsRead, IsVerdictOn};
ghost use Rattle.prolly_text.specs.Defects.{IsLengthVerdict};
ghost use Rattle.prolly_text.specs.Lines.{IsBadLine};
ghost use Rattle.prolly_text.specs.Notations.{separator};

use crate::lines::form::LineForm;
use crate::lines::line::{Change, change_of, first_place, is_marked, split_at};
use crate::notation::{Notation, TextFault, split_piece};
use prolly_entry::{KEY_LIMIT, VALUE_LIMIT};
use std::alloc::{AllocError, Global};

/// What is wrong with a line. A `byte` is the offset of what is wrong, in the whole text.
#[derive(Clone, Copy)]
pub(crate) enum Defect {
    /// It is the first one, and begins with a byte order mark.
    ByteOrderMark,
    /// It has a carriage return.
    CarriageReturn { byte: u64 },
    /// It has no separator.
    NoSeparator,
    /// Behind its separator there is another one.
    SecondSeparator { byte: u64 },
    /// A backslash begins no escape.
    BadEscape { byte: u64 },
    /// A byte is no hexadecimal digit.
    BadDigit { byte: u64 },
    /// The digits that begin there are an odd number.
    OddDigits { byte: u64 },
    /// The key has so many bytes, which are too many.
    KeyTooLong { len: usize },
    /// The value has so many bytes, which are too many.
    ValueTooLong { len: usize },
    /// It is longer than any line that stands for a record.
    LineTooLong,
}

/// Where a line stands: its number and the offset of its first byte, both counted from 0.
#[derive(Clone, Copy)]
pub(crate) struct LinePlace {
    pub(crate) number: u64,
    pub(crate) offset: u64,
}

/// What is wrong with the line that stands there; nothing where it stands for a record.
pub(crate) fn defect_of(
    alloc: Global,
    form: LineForm,
    place: LinePlace,
    line: &[u8],
) -> Result<Option<Defect>, AllocError>
    requires { place.offset + length line.now < 2 ^ 64 }
    ensures { IfOk result (IsVerdictOn form place line.now) }
{
    if place.number == 0 && is_marked(form.notation, line) {
        return Ok(Some(Defect::ByteOrderMark));
    }
    match change_of(alloc, form, line) {
        Ok(change) => Ok(length_defect(&change)),
        Err(TextFault::Memory) => Err(AllocError),
        Err(TextFault::Bad) => Ok(Some(spelling_defect(form, place, line))),
    }
}

/// What is wrong with the lengths of a change.
fn length_defect(change: &Change) -> Option<Defect>
    ensures { IsLengthVerdict change.now result }
{
    let len = change.key.len();
    if len > KEY_LIMIT {
        return Some(Defect::KeyTooLong { len });
    }
    match &change.value {
        Some(value) if value.len() > VALUE_LIMIT => {
            Some(Defect::ValueTooLong { len: value.len() })
        }
        _ => None,
    }
}

/// What is wrong with a line that stands for nothing.
fn spelling_defect(form: LineForm, place: LinePlace, line: &[u8]) -> Defect
    requires fits { place.offset + length line.now < 2 ^ 64 }
    requires bad { IsBadLine form line.now }
    ensures { HasDefect form place line.now result }
{
    let returned = first_place(line, b'\r');
    if returned < line.len() {
        return Defect::CarriageReturn {
            byte: place.offset + returned as u64,
        };
    }
    let separator = form.notation.separator();
    let Some((key, change)) = split_at(line, separator) else {
        return bare_defect(form, place, line);
    };
    let start = place.offset + key.len() as u64 + 1;
    let second = first_place(change, separator);
    if second < change.len() {
        return Defect::SecondSeparator {
            byte: start + second as u64,
        };
    }
    if let Some(defect) = part_defect(form.notation, key, place.offset) {
        return defect;
    }
    match part_defect(form.notation, change, start) {
        Some(defect) => defect,
        None => unreachable!(),
    }
}

/// What is wrong with a line without a separator that stands for nothing.
fn bare_defect(form: LineForm, place: LinePlace, line: &[u8]) -> Defect
    requires fits { place.offset + length line.now < 2 ^ 64 }
    requires bad { IsBadLine form line.now }
    requires none { AllByRecursion (λ b. b ≢ separator form.notation) line.now }
    ensures { HasDefect form place line.now result }
{
    if !form.reads_bare_keys() {
        return Defect::NoSeparator;
    }
    match part_defect(form.notation, line, place.offset) {
        Some(defect) => defect,
        None => unreachable!(),
    }
}

/// What is wrong with the spelling of a key or a value, whose text begins at this offset; nothing
/// where it stands for bytes.
fn part_defect(notation: Notation, text: &[u8], start: u64) -> Option<Defect>
    requires { start + length text.now < 2 ^ 64 }
    ensures some { IfSome result (IsPartDefect notation text.now start) }
    ensures none { IfNone result (IsRead notation text.now) }
{
    match notation {
        Notation::Hex => digits_defect(text, start),
        Notation::Text => escape_defect(text, start),
    }
}

/// What is wrong with a text in hexadecimal.
fn digits_defect(text: &[u8], start: u64) -> Option<Defect>
    requires { start + length text.now < 2 ^ 64 }
    ensures some { IfSome result (IsPartDefect Notation.Hex text.now start) }
    ensures none { IfNone result (IsRead Notation.Hex text.now) }
{
    let digits = leading_digits(text);
    if digits < text.len() {
        return Some(Defect::BadDigit {
            byte: start + digits as u64,
        });
    }
    if digits % 2 == 1 {
        return Some(Defect::OddDigits { byte: start });
    }
    None
}

/// How many hexadecimal digits a text begins with.
fn leading_digits(text: &[u8]) -> usize
    ensures bound { result ≤ length text.now }
    ensures all { All (λ b. is_ascii_hexdigit b ≡ true) (take result text.now) }
    ensures over { result < length text.now →
        is_ascii_hexdigit (slice_index text.now result) ≡ false }
{
    for (place, digit) in text.iter().enumerate() {
        if !digit.is_ascii_hexdigit() {
            return place;
        }
    }
    text.len()
}

/// What is wrong with a text with escapes.
fn escape_defect(text: &[u8], start: u64) -> Option<Defect>
    requires { start + length text.now < 2 ^ 64 }
    ensures some { IfSome result (IsPartDefect Notation.Text text.now start) }
    ensures none { IfNone result (IsRead Notation.Text text.now) }
{
    let mut rest = text;
    while !rest.is_empty() {
        let Some((_, behind)) = split_piece(rest) else {
            return Some(Defect::BadEscape {
                byte: start + (text.len() - rest.len()) as u64,
            });
        };
        rest = behind;
    }
    None
}
