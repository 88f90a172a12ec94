//! Lists of keys out of text. Lines are numbered from 0.
ghost use Rattle.std.specs.Option.{option_copied};
ghost use Rattle.std.specs.Prelude.{◌≡◌, IfErr, IfOk, Some, map};
ghost use Rattle.prolly_text.specs.KeyLines.{IsKeyList, IsKeysFault, IsNextKey, IsWrongNext};
ghost use Rattle.prolly_text.specs.KeyLines.{key_fault_at, last_of};

use crate::lines::line::{LineFlaw, bytes_of, is_marked, split_line};
use crate::notation::Notation;
use prolly_entry::{KEY_LIMIT, key_rises};
use std::alloc::Global;
use std::fmt;
use std::fmt::{Display, Formatter};
use thiserror::Error;

/// Why a text is no list of keys that rise.
#[derive(Clone, Copy, Debug, PartialEq, Eq, Error)]
pub enum KeysFault {
    /// Memory was refused.
    Memory,
    /// The text begins with a byte order mark. It would be a part of the first key, which is
    /// hardly meant; such a key is written with escapes, `\xEF\xBB\xBF`.
    ByteOrderMark,
    /// The line is no key in hexadecimal.
    BadLine { line: u64 },
    /// The line is no key of text.
    BadText { line: u64 },
    /// The key has more than 1,024 bytes.
    KeyTooLong { line: u64 },
    /// The key is not greater than that of the line before.
    NotRising { line: u64 },
}

impl Display for KeysFault {
    ghost use Rattle.prolly_text.specs.LinesFaults.{keys_text};

    ghost output = { λ fault. Some (keys_text fault) };

    fn fmt<W: fmt::Write>(&self, f: &mut Formatter<W>) -> fmt::Result {
        match self {
            KeysFault::Memory => write!(f, "out of memory"),
            KeysFault::ByteOrderMark => f.write_str("line 0: begins with a byte order mark"),
            KeysFault::BadLine { line } => write!(f, "line {line}: not a key in hexadecimal"),
            KeysFault::BadText { line } => write!(f, "line {line}: not a key of text"),
            KeysFault::KeyTooLong { line } => write!(f, "line {line}: key too long"),
            KeysFault::NotRising { line } => {
                write!(f, "line {line}: key not greater than the one before")
            }
        }
    }
}

/// What is wrong with the line of a key.
#[derive(Clone, Copy)]
enum KeyFlaw {
    Memory,
    Bad,
    TooLong,
    NotRising,
}

/// The keys that the lines of a text stand for, of which each has to be greater than the one before
/// it. That the text begins with a byte order mark is told before all else. Of one line it is told
/// first that it is no key, then that this is too long, and then that it is not greater.
///
/// Takes memory for each key, and time linear in the text.
pub fn keys_of_lines(
    alloc: Global,
    notation: Notation,
    text: &[u8],
) -> Result<Vec<Vec<u8>>, KeysFault>
    ensures ok { IfOk result (λ keys.
        IsKeyList notation text.now (map (λ k. k.items) keys.items)) }
    ensures err { IfErr result (IsKeysFault notation text.now) }
{
    if is_marked(notation, text) {
        return Err(KeysFault::ByteOrderMark);
    }
    let mut keys: Vec<Vec<u8>> = Vec::new(alloc);
    let mut rest = text;
    while !rest.is_empty() {
        let (line, next) = split_line(rest);
        let key = match next_key(alloc, notation, &keys, line) {
            Ok(key) => key,
            Err(flaw) => return Err(key_fault_at(notation, flaw, keys.len() as u64)),
        };
        if let Err(_) = keys.push(key) {
            return Err(KeysFault::Memory);
        }
        rest = next;
    }
    Ok(keys)
}

/// The key of the line that stands behind those of these keys.
fn next_key(
    alloc: Global,
    notation: Notation,
    keys: &[Vec<u8>],
    line: &[u8],
) -> Result<Vec<u8>, KeyFlaw>
    ensures ok { IfOk result (λ key.
        IsNextKey notation (map (λ k. k.items) keys.now) line.now key.items) }
    ensures err { IfErr result (IsWrongNext notation (map (λ k. k.items) keys.now) line.now) }
{
    let key = match bytes_of(alloc, notation, line) {
        Ok(key) => key,
        Err(LineFlaw::Memory) => return Err(KeyFlaw::Memory),
        Err(_) => return Err(KeyFlaw::Bad),
    };
    if key.len() > KEY_LIMIT {
        return Err(KeyFlaw::TooLong);
    }
    if !key_rises(last_of(keys), &key) {
        return Err(KeyFlaw::NotRising);
    }
    Ok(key)
}

/// The last of the keys.
fn last_of(keys: &[Vec<u8>]) -> Option<&[u8]>
    ensures { option_copied result ≡ last_of (map (λ k. k.items) keys.now) }
{
    match keys.last() {
        None => None,
        Some(last) => Some(last),
    }
}

/// The fault that a flaw at a line is.
fn key_fault_at(notation: Notation, flaw: KeyFlaw, line: u64) -> KeysFault
    ensures { result ≡ key_fault_at notation flaw line }
{
    match flaw {
        KeyFlaw::Memory => KeysFault::Memory,
        KeyFlaw::Bad => match notation {
            Notation::Hex => KeysFault::BadLine { line },
            Notation::Text => KeysFault::BadText { line },
        },
        KeyFlaw::TooLong => KeysFault::KeyTooLong { line },
        KeyFlaw::NotRising => KeysFault::NotRising { line },
    }
}
