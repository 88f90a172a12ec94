//! A reference names a chunk by its hash. Its text is for people and for the names of files, so it
//! has only figures and lower case letters, and one reference has one text.
ghost use Rattle.std.specs.Prelude.{◌≡◌, ◌^◌, ◌<◌, ◌≤◌, ℕ, List, length, All, IfSome, IfNone};
ghost use Rattle.std.specs.Prelude.{IsSomeAnd};
ghost use Rattle.prolly_entry.specs.Byte.{IsByte};
ghost use Rattle.prolly_entry.specs.Reference.{reference_of, reference_text, number_of, character};
ghost use Rattle.prolly_entry.specs.Reference.{characters, IsCharacter, IsReference};

use sha2::{Digest, Sha512};

/// The character of each digit in base 32.
const CHARACTERS: [u8; 32] = *b"0123456789abcdefghijklmnopqrstuv";

/// A text is made and read in groups, each of which is a number that a `u64` holds.
const GROUPS: usize = 4;

/// The bytes of a group, which are 40 bits.
const GROUP_BYTES: usize = 5;

/// The characters of a group, which are as many bits.
const GROUP_CHARACTERS: usize = 8;

/// How many bytes a reference has.
pub const REFERENCE_SIZE: usize = 20;

/// The reference of a chunk.
#[derive(Clone, Copy, PartialEq, Eq, PartialOrd, Ord, Hash, Debug)]
pub struct Ref(pub [u8; REFERENCE_SIZE]);

impl Ref {
    /// The reference of a chunk of these bytes.
    pub fn of(bytes: &[u8]) -> Ref
        ensures hashed { result.0 ≡ reference_of bytes.now }
        ensures reference { IsReference result.0 }
    {
        let digest = Sha512::digest(bytes);
        let mut first = [0; REFERENCE_SIZE];
        first.copy_from_slice(&digest[..REFERENCE_SIZE]);
        Ref(first)
    }

    /// The text of the reference.
    pub fn to_text(&self) -> [u8; 32]
        ensures written { result ≡ reference_text self.now.0 }
        ensures reference { IsReference self.now.0 }
    {
        let mut text = [0; 32];
        for group in 0..GROUPS {
            let byte = GROUP_BYTES * group;
            let character = GROUP_CHARACTERS * group;
            let number = number_of_bytes(&self.0[byte..byte + GROUP_BYTES]);
            write_characters(number, &mut text[character..character + GROUP_CHARACTERS]);
        }
        text
    }

    /// The reference of which this is the text, or `None` where it is the text of none.
    pub fn from_text(text: &[u8]) -> Option<Ref>
        ensures read { IfSome result (λ reference. reference_text reference.0 ≡ text.now) }
        ensures reference { IfSome result (λ reference. IsReference reference.0) }

        // No text of a reference is refused.
        ensures every { (bytes : List ℕ) → IsReference bytes → reference_text bytes ≡ text.now →
            IsSomeAnd result (λ reference. reference.0 ≡ bytes) }
    {
        if text.len() != 32 {
            return None;
        }
        let mut bytes = [0; REFERENCE_SIZE];
        for group in 0..GROUPS {
            let byte = GROUP_BYTES * group;
            let character = GROUP_CHARACTERS * group;
            let number = number_of_characters(&text[character..character + GROUP_CHARACTERS])?;
            write_bytes(number, &mut bytes[byte..byte + GROUP_BYTES]);
        }
        Some(Ref(bytes))
    }
}

/// The number that a few bytes spell, the highest first.
fn number_of_bytes(bytes: &[u8]) -> u64
    requires { length bytes.now ≤ 8 }
    ensures spelled { result ≡ number_of 0 bytes.now }
    ensures below { result < 256 ^ length bytes.now }
    ensures in_range { All IsByte bytes.now }
{
    let mut number = 0;
    for byte in bytes {
        number = number * 256 + u64::from(*byte);
    }
    number
}

/// Writes the bytes of a number, the highest first.
fn write_bytes(mut number: u64, bytes: &mut [u8])
    requires { number < 256 ^ length bytes.old }
    ensures spelled { number_of 0 bytes.new ≡ number }
    ensures in_range { All IsByte bytes.new }
{
    for index in (0..bytes.len()).rev() {
        bytes[index] = (number % 256) as u8;
        number /= 256;
    }
}

/// Writes the last digits of a number, the highest first, as many as there is room for.
fn write_characters(mut number: u64, text: &mut [u8])
    ensures { text.new ≡ characters (length text.old) number }
{
    for index in (0..text.len()).rev() {
        text[index] = CHARACTERS[(number % 32) as usize];
        number /= 32;
    }
}

/// The number of which a few characters are the digits, or `None` where one of them is of no digit.
fn number_of_characters(text: &[u8]) -> Option<u64>
    requires { length text.now ≤ 12 }
    ensures below { IfSome result (λ number. number < 32 ^ length text.now) }
    ensures read { IfSome result (λ number. characters (length text.now) number ≡ text.now) }
    ensures none { IfNone result (¬ All IsCharacter text.now) }
{
    let mut number = 0;
    for byte in text {
        number = number * 32 + u64::from(digit_of(*byte)?);
    }
    Some(number)
}

/// The digit of which this is the character, or `None`.
fn digit_of(byte: u8) -> Option<u8>
    ensures below { IfSome result (λ digit. digit < 32) }
    ensures read { IfSome result (λ digit. character digit ≡ byte) }
    ensures none { IfNone result (¬ IsCharacter byte) }
{
    match byte {
        b'0'..=b'9' => Some(byte - b'0'),
        b'a'..=b'v' => Some(byte - b'a' + 10),
        _ => None,
    }
}
