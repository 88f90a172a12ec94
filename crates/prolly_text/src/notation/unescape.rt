//! Reading text: one piece after another, a byte or an escape.
ghost use Rattle.std.specs.Prelude.{IfOk, IfErr, ◌≡◌, ◌∷◌, IfSome, IfNone};
ghost use Rattle.prolly_text.specs.Notations.{IsTextFault, IsWritten};
ghost use Rattle.prolly_text.specs.declared.notation.Notation.TheVariants.{Text};
ghost use Rattle.prolly_text.specs.Pieces.{HasPiece, BeginsWithNone, is_plain, named_byte};

use crate::notation::TextFault;
use std::alloc::Global;

/// The bytes whose pieces a text is.
pub(crate) fn unescaped(alloc: Global, text: &[u8]) -> Result<Vec<u8>, TextFault>
    ensures ok { IfOk result (λ bytes. IsWritten Text text.now bytes.items) }
    ensures err { IfErr result (λ fault. IsTextFault Text text.now fault) }
{
    // No text is shorter than its bytes.
    let Ok(mut bytes) = Vec::with_capacity(alloc, text.len()) else {
        return Err(TextFault::Memory);
    };
    let mut rest = text;
    while !rest.is_empty() {
        let Some((byte, behind)) = split_piece(rest) else {
            return Err(TextFault::Bad);
        };
        if bytes.push(byte).is_err() {
            return Err(TextFault::Memory);
        }
        rest = behind;
    }
    Ok(bytes)
}

/// The byte that the first piece of a text stands for, and the text behind that piece.
pub(crate) fn split_piece(text: &[u8]) -> Option<(u8, &[u8])>
    ensures some { IfSome result (λ first. HasPiece text.now first.0 first.1.now) }
    ensures none { IfNone result (BeginsWithNone text.now) }
{
    let (first, behind) = text.split_first()?;
    if *first == b'\\' {
        return split_escape(behind);
    }
    if is_plain(*first) {
        return Some((*first, behind));
    }
    None
}

/// The first byte of a text in front of which a backslash stands, and the text behind it.
fn split_escape(text: &[u8]) -> Option<(u8, &[u8])>
    ensures some { IfSome result (λ first. HasPiece (0x5C ∷ text.now) first.0 first.1.now) }
    ensures none { IfNone result (BeginsWithNone (0x5C ∷ text.now)) }
{
    let (letter, behind) = text.split_first()?;
    if *letter == b'x' {
        return split_digits(behind);
    }
    let byte = named_byte(*letter)?;
    Some((byte, behind))
}

/// The first byte of a text in front of which `\x` stands, and the text behind it.
fn split_digits(text: &[u8]) -> Option<(u8, &[u8])>
    ensures some { IfSome result (λ first.
        HasPiece (0x5C ∷ 0x78 ∷ text.now) first.0 first.1.now) }
    ensures none { IfNone result (BeginsWithNone (0x5C ∷ 0x78 ∷ text.now)) }
{
    if text.len() < 2 {
        return None;
    }
    let (digits, behind) = text.split_at(2);
    let mut byte = [0u8];
    match hex::decode_to_slice(digits, &mut byte) {
        Ok(()) => Some((byte[0], behind)),
        Err(_) => None,
    }
}

fn is_plain(byte: u8) -> bool
    ensures { result ≡ is_plain byte }
{
    !(byte == b'\\' || byte == b'\t' || byte == b'\n' || byte == b'\r')
}

/// The byte for which a letter stands behind a backslash.
fn named_byte(letter: u8) -> Option<u8>
    ensures { result ≡ named_byte letter }
{
    match letter {
        b'b' => Some(0x08),
        b't' => Some(0x09),
        b'n' => Some(0x0a),
        b'v' => Some(0x0b),
        b'f' => Some(0x0c),
        b'r' => Some(0x0d),
        b'\\' => Some(0x5c),
        _ => None,
    }
}
