//! The two ways in which keys and values are written.
#![tactic(auto, using(crate::proofs::Appended::front_kept))]

mod escape;
mod name;
mod unescape;

ghost use Rattle.std.specs.Prelude.{◌≡◌, ◌++◌, IfOk, IfErr, OnOk};
ghost use Rattle.hex.specs.Hex.{encode_lower};
ghost use Rattle.prolly_text.specs.Appending.{Appends};
ghost use Rattle.prolly_text.specs.Notations.{IsWritten, IsTextFault, separator, written};

use crate::notation::escape::append_text;
use crate::notation::unescape::unescaped;
use hex::FromHexError;
pub use name::append_name;
use std::alloc::{AllocError, Global};
pub(crate) use unescape::split_piece;

/// How the bytes of keys and values are written.
#[derive(Clone, Copy, Debug)]
pub enum Notation {
    /// Two hexadecimal digits a byte.
    Hex,
    /// Characters of UTF-8 as they are, but for control characters (below `20`, and `7F` to `9F`),
    /// byte order marks (U+FEFF) and backslashes: these, and bytes that are no character, are
    /// escaped by a backslash.
    Text,
}

/// Why a text gives no bytes.
#[derive(Clone, Copy, Debug, PartialEq, Eq)]
pub enum TextFault {
    /// Memory was refused.
    Memory,
    /// The text is not written in this way.
    Bad,
}

impl Notation {
    /// What stands between a key and its value: a space, or a tab. Neither notation has it within
    /// a key or a value.
    pub fn separator(self) -> u8
        ensures { result ≡ separator self }
    {
        match self {
            Notation::Hex => b' ',
            Notation::Text => b'\t',
        }
    }

    /// Appends what is written for the bytes, in time linear in them. An `Err` may leave a part of
    /// it behind.
    pub fn append(self, out: &mut Vec<u8>, bytes: &[u8]) -> Result<(), AllocError>
        ensures { Appends result out.old.items (written self bytes.now) out.new.items }
    {
        match self {
            Notation::Hex => append_hex(out, bytes),
            Notation::Text => append_text(out, bytes),
        }
    }

    /// The bytes for which a text is written, in time linear in it.
    pub fn bytes_of(self, alloc: Global, text: &[u8]) -> Result<Vec<u8>, TextFault>
        ensures ok { IfOk result (λ bytes. IsWritten self text.now bytes.items) }
        ensures err { IfErr result (λ fault. IsTextFault self text.now fault) }
    {
        match self {
            Notation::Hex => hex_bytes(alloc, text),
            Notation::Text => unescaped(alloc, text),
        }
    }
}

/// Appends the bytes in hexadecimal, in lower case.
pub fn append_hex(out: &mut Vec<u8>, bytes: &[u8]) -> Result<(), AllocError>
    ensures { Appends result out.old.items (encode_lower bytes.now) out.new.items }
{
    let start = out.len();
    let Some(digits) = bytes.len().checked_mul(2) else {
        return Err(AllocError);
    };
    let Some(end) = start.checked_add(digits) else {
        return Err(AllocError);
    };
    out.resize(end, 0)?;
    match hex::encode_to_slice(bytes, &mut out[start..]) {
        Ok(()) => Ok(()),
        Err(_) => unreachable!(),
    }
}

/// The bytes that a text in hexadecimal is.
fn hex_bytes(alloc: Global, text: &[u8]) -> Result<Vec<u8>, TextFault>
    ensures ok { IfOk result (λ bytes. IsWritten Notation.Hex text.now bytes.items) }
    ensures err { IfErr result (λ fault. IsTextFault Notation.Hex text.now fault) }
{
    match hex::decode(alloc, text) {
        Ok(bytes) => Ok(bytes),
        Err(FromHexError::OutOfMemory) => Err(TextFault::Memory),
        Err(_) => Err(TextFault::Bad),
    }
}
