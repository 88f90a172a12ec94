//! Bytes written as text.
ghost use Rattle.std.specs.Prelude.{◌≡◌, ◌++◌, OnOk};
ghost use Rattle.std.specs.List.{flat_map};
ghost use Rattle.std.specs.Str.{chars};
ghost use Rattle.prolly_text.specs.Appending.{Appends};
ghost use Rattle.prolly_text.specs.Escapes.{hex_escape, is_hidden, letter_of, shown_character};
ghost use Rattle.prolly_text.specs.Escapes.{shown_plain, text_of};

use crate::notation::append_hex;
use std::alloc::{AllocError, Global};

/// Appends the text of the bytes: their characters, and escapes.
pub(crate) fn append_text(out: &mut Vec<u8>, bytes: &[u8]) -> Result<(), AllocError>
    ensures { Appends result out.old.items (text_of bytes.now) out.new.items }
{
    for chunk in bytes.utf8_chunks() {
        append_characters(out, chunk.valid())?;
        append_escapes(out, chunk.invalid())?;
    }
    Ok(())
}

/// Appends each character, as it stands or escaped.
fn append_characters(out: &mut Vec<u8>, text: &str) -> Result<(), AllocError>
    ensures { Appends result out.old.items (flat_map shown_character (chars text.now))
        out.new.items }
{
    for character in text.chars() {
        append_character(out, character)?;
    }
    Ok(())
}

/// Appends an escape for each byte.
fn append_escapes(out: &mut Vec<u8>, bytes: &[u8]) -> Result<(), AllocError>
    ensures { Appends result out.old.items (flat_map hex_escape bytes.now) out.new.items }
{
    for byte in bytes {
        append_escape(out, *byte)?;
    }
    Ok(())
}

/// Appends a character, as it stands or escaped.
fn append_character(out: &mut Vec<u8>, character: char) -> Result<(), AllocError>
    ensures { Appends result out.old.items (shown_character character) out.new.items }
{
    if let Some(letter) = letter_of(character) {
        return out.extend_from_slice(&[b'\\', letter]);
    }
    append_plain(out, character)
}

/// Appends a character that has no letter: a hidden one by its bytes, and every other one as it
/// stands.
pub(crate) fn append_plain(out: &mut Vec<u8>, character: char) -> Result<(), AllocError>
    ensures { Appends result out.old.items (shown_plain character) out.new.items }
{
    let mut buffer = [0; 4];
    if is_hidden(character) {
        return append_escapes(out, character.encode_utf8(&mut buffer).as_bytes());
    }
    // Most text is ASCII, for which a push is shorter than a copy.
    if character.is_ascii() {
        out.push(character as u8)?;
        return Ok(());
    }
    out.extend_from_slice(character.encode_utf8(&mut buffer).as_bytes())
}

/// Whether nobody sees the character. A byte order mark is hidden so that no text begins with one,
/// which `pack` would refuse.
fn is_hidden(character: char) -> bool
    ensures { result ≡ is_hidden character }
{
    character.is_control() || character == '\u{feff}'
}

/// Appends `\x` and the byte in hexadecimal.
fn append_escape(out: &mut Vec<u8>, byte: u8) -> Result<(), AllocError>
    ensures { Appends result out.old.items (hex_escape byte) out.new.items }
{
    out.extend_from_slice(b"\\x")?;
    append_hex(out, &[byte])
}

/// The letter by which a character is escaped, if it has one.
fn letter_of(character: char) -> Option<u8>
    ensures { result ≡ letter_of character }
{
    match character {
        '\x08' => Some(b'b'),
        '\t' => Some(b't'),
        '\n' => Some(b'n'),
        '\x0b' => Some(b'v'),
        '\x0c' => Some(b'f'),
        '\r' => Some(b'r'),
        '\\' => Some(b'\\'),
        _ => None,
    }
}
