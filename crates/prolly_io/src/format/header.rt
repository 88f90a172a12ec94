//! The header of a chunk file.
ghost use Rattle.std.specs.Prelude.{◌≡◌, ◌<◌, ◌≤◌, None, Some, length, slice_index, IfOk, IfErr};
ghost use Rattle.prolly_tree.specs.File.{header};
ghost use Rattle.prolly_io.specs.Header.{header_tests, header_fault, test_at, version_of};

use prolly_entry::{BITS_LIMIT, Version};

/// The size of a header, in bytes.
pub const HEADER_SIZE: usize = 6;

/// Where the byte of the version stands.
const VERSION_PLACE: usize = 4;

/// Where the byte of the number of bits stands.
const BITS_PLACE: usize = 5;

/// What a header says.
#[derive(Clone, Copy)]
pub struct Header {
    /// The version of the file.
    pub version: Version,
    /// The number of bits by which its entries were cut, from 0 to 24 where it was read.
    pub bits: u8,
}

/// Why bytes do not begin with a header.
#[derive(Clone, Copy, Debug, PartialEq, Eq)]
pub enum HeaderFault {
    /// They end inside the header.
    Truncated,
    /// One of the first six bytes may not stand there.
    BadByte,
}

impl Header {
    /// What a file begins with.
    pub fn to_bytes(self) -> [u8; HEADER_SIZE]
        ensures { result ≡ header self.version self.bits }
    {
        [b'P', b'R', b'L', b'Y', self.version.to_byte(), self.bits]
    }
}

/// The header that begins the bytes of a chunk file. Takes no memory, and constant time.
///
/// Bytes that do not begin as a file does are told before bytes that end too early.
pub fn read_header(bytes: &[u8]) -> Result<Header, HeaderFault>
    ensures found { IfOk result (λ r. header_fault header_tests bytes.now ≡ None) }
    ensures version { IfOk result (λ r. r.version ≡ version_of (slice_index bytes.now 4)) }
    ensures bits { IfOk result (λ r. r.bits ≡ slice_index bytes.now 5) }
    ensures room { IfOk result (λ r. HEADER_SIZE ≤ length bytes.now) }
    ensures err { IfErr result (λ fault. header_fault header_tests bytes.now ≡ Some fault) }
{
    for offset in 0..HEADER_SIZE {
        if offset >= bytes.len() {
            return Err(HeaderFault::Truncated);
        }
        if !may_stand(offset, bytes[offset]) {
            return Err(HeaderFault::BadByte);
        }
    }
    Ok(Header {
        version: version_of(bytes[VERSION_PLACE]),
        bits: bytes[BITS_PLACE],
    })
}

/// Whether the byte may stand at the offset.
fn may_stand(offset: usize, byte: u8) -> bool
    requires { offset < 6 }
    ensures { result ≡ test_at offset byte }
{
    match offset {
        0 => byte == b'P',
        1 => byte == b'R',
        2 => byte == b'L',
        3 => byte == b'Y',
        VERSION_PLACE => Version::of(byte).is_some(),
        _ => byte <= BITS_LIMIT,
    }
}

/// The version that a byte which may stand in a header stands for.
fn version_of(byte: u8) -> Version
    ensures { result ≡ version_of byte }
{
    if byte == 1 {
        Version::One
    } else {
        Version::Two
    }
}
