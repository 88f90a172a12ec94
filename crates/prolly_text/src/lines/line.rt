//! One line, and the record that it stands for.
ghost use Rattle.std.specs.Prelude.{◌≡◌, ◌≢◌, ◌<◌, ◌≤◌, ◌∷◌, ◌++◌, [], ℕ, List, All, length, take};
ghost use Rattle.std.specs.Prelude.{Some, None, slice_get, IfOk, IfErr, IfSome, IfNone, IsTrue};
ghost use Rattle.std.specs.Prelude.{◌↔◌};
ghost use Rattle.std.specs.List.{AllByRecursion};
ghost use Rattle.prolly_text.specs.Notations.{IsWritten, separator};
ghost use Rattle.prolly_text.specs.Lines.{CutsAt, IsMarked, lines_of};
ghost use Rattle.prolly_text.specs.PackedLines.{IsChangeOf, IsLongChange, IsLongKey, IsLongPair};
ghost use Rattle.prolly_text.specs.PackedLines.{IsNotWritten, IsUnreadLine, IsWrittenFor};
ghost use Rattle.prolly_text.specs.PackedLines.{IsWrongLine, MarksRemoval, StandsFor, flaw_of};
ghost use Rattle.prolly_text.specs.PackedLines.{value_in};

use crate::lines::form::LineForm;
use crate::notation::{Notation, TextFault};
use memchr::memchr;
use prolly_entry::{EntryFault, Pair, Record};
use std::alloc::Global;

/// What is wrong with a line.
#[derive(Clone, Copy)]
pub(crate) enum LineFlaw {
    Memory,
    Bad,
    KeyTooLong,
    ValueTooLong,
}

/// The first line of a text that has one, and the text behind it.
pub(crate) fn split_line(text: &[u8]) -> (&[u8], &[u8])
    requires { 0 < length text.now }
    ensures lines { lines_of text.now ≡ result.0.now ∷ lines_of result.1.now }
    ensures shorter { length result.1.now < length text.now }
{
    let end = first_place(text, b'\n');
    let (line, rest) = text.split_at(end);
    if rest.is_empty() {
        return (line, rest);
    }
    (line, &rest[1..])
}

/// The record that a line stands for.
pub(crate) fn record_of(alloc: Global, form: LineForm, line: &[u8]) -> Result<Record, LineFlaw>
    ensures ok { IfOk result (λ r. StandsFor form line.now r) }
    ensures err { IfErr result (λ flaw. IsWrongLine form line.now flaw) }
{
    match change_of(alloc, form, line) {
        Ok(change) => lawful_record(change),
        Err(TextFault::Memory) => Err(LineFlaw::Memory),
        Err(TextFault::Bad) => Err(LineFlaw::Bad),
    }
}

/// A key, and the value that a line puts there; with none the key is removed. Either may be too
/// long.
#[derive(Drop)]
pub(crate) struct Change {
    pub(crate) key: Vec<u8>,
    pub(crate) value: Option<Vec<u8>>,
}

/// The change that a line is written for.
pub(crate) fn change_of(alloc: Global, form: LineForm, line: &[u8]) -> Result<Change, TextFault>
    ensures ok { IfOk result (IsWrittenFor form line.now) }
    ensures err { IfErr result (IsUnreadLine form line.now) }
{
    let notation = form.notation;
    let Some((key, change)) = split_at(line, notation.separator()) else {
        return bare_change(alloc, form, line);
    };
    let key = notation.bytes_of(alloc, key)?;
    if is_removal(notation, change) {
        return Ok(Change { key, value: None });
    }
    let value = notation.bytes_of(alloc, change)?;
    Ok(Change {
        key,
        value: Some(value),
    })
}

/// The change of a line without a separator: in text a removal, where removals are looked for.
fn bare_change(alloc: Global, form: LineForm, line: &[u8]) -> Result<Change, TextFault>
    requires { AllByRecursion (λ b. b ≢ separator form.notation) line.now }
    ensures ok { IfOk result (IsWrittenFor form line.now) }
    ensures err { IfErr result (IsUnreadLine form line.now) }
{
    if !form.reads_bare_keys() {
        return Err(TextFault::Bad);
    }
    let key = form.notation.bytes_of(alloc, line)?;
    Ok(Change { key, value: None })
}

/// The record of a change, where neither its key nor its value is too long.
fn lawful_record(change: Change) -> Result<Record, LineFlaw>
    ensures ok { IfOk result (λ r. IsChangeOf change.key.items (value_in change) r) }
    ensures err { IfErr result (IsLongChange change.key.items (value_in change)) }
{
    let Change { key, value } = change;
    match value {
        None => removal(key),
        Some(value) => put(key, value),
    }
}

/// Whether a text begins with a byte order mark. In hexadecimal none is looked for, since no line
/// begins so that stands for anything.
pub(crate) fn is_marked(notation: Notation, text: &[u8]) -> bool
    ensures { IsTrue result ↔ IsMarked notation text.now }
{
    match notation {
        Notation::Hex => false,
        Notation::Text => matches!(text, [0xEF, 0xBB, 0xBF, ..]),
    }
}

/// Whether what is behind the separator marks a removal.
fn is_removal(notation: Notation, change: &[u8]) -> bool
    ensures { IsTrue result ↔ MarksRemoval notation change.now }
{
    match notation {
        Notation::Hex => change == b"-".as_slice(),
        Notation::Text => false,
    }
}

/// The removal of a key.
fn removal(key: Vec<u8>) -> Result<Record, LineFlaw>
    ensures ok { IfOk result (λ r. IsChangeOf key.items None r) }
    ensures err { IfErr result (λ flaw. IsLongKey key.items flaw) }
{
    match Record::remove(key) {
        Ok(removal) => Ok(removal),
        Err(fault) => Err(flaw_of(fault)),
    }
}

/// The record that puts a value at a key.
fn put(key: Vec<u8>, value: Vec<u8>) -> Result<Record, LineFlaw>
    ensures ok { IfOk result (λ r. IsChangeOf key.items (Some value.items) r) }
    ensures err { IfErr result (λ flaw. IsLongPair key.items value.items flaw) }
{
    match Pair::new(key, value) {
        Ok(pair) => Ok(Record::put(pair)),
        Err(fault) => Err(flaw_of(fault)),
    }
}

fn flaw_of(fault: EntryFault) -> LineFlaw
    ensures { result ≡ flaw_of fault }
{
    match fault {
        EntryFault::KeyTooLong => LineFlaw::KeyTooLong,
        EntryFault::ValueTooLong => LineFlaw::ValueTooLong,
    }
}

/// The text before the first byte of this value, and the text behind it.
pub(crate) fn split_at(line: &[u8], byte: u8) -> Option<(&[u8], &[u8])>
    ensures some { IfSome result (λ texts. CutsAt byte line.now texts.0.now texts.1.now) }
    ensures none { IfNone result (AllByRecursion (λ b. b ≢ byte) line.now) }
{
    let place = first_place(line, byte);
    let (key, rest) = line.split_at(place);
    if rest.is_empty() {
        return None;
    }
    Some((key, &rest[1..]))
}

/// The bytes that a text stands for.
pub(crate) fn bytes_of(alloc: Global, notation: Notation, text: &[u8]) -> Result<Vec<u8>, LineFlaw>
    ensures ok { IfOk result (λ bytes. IsWritten notation text.now bytes.items) }
    ensures err { IfErr result (λ flaw. IsNotWritten notation text.now flaw) }
{
    match notation.bytes_of(alloc, text) {
        Ok(bytes) => Ok(bytes),
        Err(TextFault::Memory) => Err(LineFlaw::Memory),
        Err(TextFault::Bad) => Err(LineFlaw::Bad),
    }
}

/// The first place of a byte, or the number of bytes where it is not among them.
pub(crate) fn first_place(bytes: &[u8], byte: u8) -> usize
    ensures bound { result ≤ length bytes.now }
    ensures none { All (λ b. b ≢ byte) (take result bytes.now) }
    ensures there { result < length bytes.now → slice_get bytes.now result ≡ Some byte }
{
    match memchr(byte, bytes) {
        Some(place) => place,
        None => bytes.len(),
    }
}
