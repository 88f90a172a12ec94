//! Cuts: which entries end a chunk.
ghost use Rattle.std.specs.Prelude.{◌≡◌, ℕ, ◌≤◌, ◌<◌, ◌%◌, ◌^◌, ◌==◌, IfSome, IfNone};
ghost use Rattle.prolly_entry.specs.Cut.{Cut as CutValue, sha512_cut, key_cut, boundary_number};
ghost use Rattle.prolly_entry.specs.Spelling.{pair_spelling};

use crate::pair::Pair;
use crate::spelling::split_key;
use byteorder::{BigEndian, ByteOrder};
use sha2::{Digest, Sha512};
use std::marker::Model;

/// The greatest number of bits of a [`Sha512Cut`].
pub const BITS_LIMIT: u8 = 24;

/// Which entries end a chunk. All answers are functions of the cut's value and the entry's bytes,
/// so equal contents are cut in equal places.
pub trait Cut: Copy + Send {
    /// The cut as the definitions have it.
    ghost cut: { Self → CutValue };

    /// The number of the cut, which stands in the header of a chunk file.
    fn bits(&self) -> u8
        ensures { result ≡ (cut self.now).bits };

    /// Whether the entry, the spelling of a pair or of a child entry, is a boundary.
    fn is_boundary(&self, entry: &[u8]) -> bool
        ensures { result ≡ (cut self.now).is_boundary entry.now };

    /// Whether a pair of this spelling is a boundary: as [`Cut::is_boundary`] of the spelling, and
    /// perhaps faster, since a cut may use what the pair carries.
    fn is_boundary_pair(&self, pair: &Pair, spelling: &[u8]) -> bool
        requires { spelling.now ≡ pair_spelling pair.now }
        ensures { result ≡ (cut self.now).is_boundary spelling.now }
    {
        self.is_boundary(spelling)
    }
}

/// The cut of a number of bits q from 0 to 24: an entry is a boundary where its boundary number is
/// a multiple of 2^q, so about one entry in 2^q is.
#[derive(Clone, Copy, Debug)]
pub struct Sha512Cut {
    bits: u8,
}

impl Model for Sha512Cut {
    ghost Value = { ℕ };

    ghost view = { λ cut. cut.bits };

    ghost invariant = { λ cut. cut.bits ≤ 24 };

    ghost inverse = { λ bits. record { bits = bits } };
}

impl Sha512Cut {
    /// The cut of so many bits; none for more than 24.
    pub fn new(bits: u8) -> Option<Sha512Cut>
        ensures some { IfSome result (λ cut. (cut ≡ bits) × (bits ≤ 24)) }
        ensures none { IfNone result (24 < bits) }
    {
        if bits > BITS_LIMIT {
            return None;
        }
        Some(Sha512Cut { bits })
    }

    // Whether an entry of this boundary number is a boundary.
    fn divides(&self, number: u32) -> bool
        ensures { result ≡ (number % 2 ^ self.now == 0) }
    {
        number % (1u32 << self.bits) == 0
    }
}

impl Cut for Sha512Cut {
    ghost cut = { λ bits. sha512_cut bits };

    fn bits(&self) -> u8 {
        self.bits
    }

    /// Takes one hash of the entry.
    fn is_boundary(&self, entry: &[u8]) -> bool {
        self.divides(boundary_number(entry))
    }

    /// Takes no hash where the pair carries its boundary number.
    fn is_boundary_pair(&self, pair: &Pair, spelling: &[u8]) -> bool {
        match pair.boundary_number() {
            Some(number) => self.divides(number),
            None => self.is_boundary(spelling),
        }
    }
}

/// The cut of examples and tests: an entry is a boundary where it holds a key whole, by the length
/// in its first two bytes, and that key ends with `!`. Its number is 255, which no lawful chunk
/// file has.
#[derive(Clone, Copy, Debug)]
pub struct KeyCut;

impl Cut for KeyCut {
    ghost cut = { λ _. key_cut };

    fn bits(&self) -> u8 {
        255
    }

    fn is_boundary(&self, entry: &[u8]) -> bool {
        match split_key(entry) {
            Some((key, _)) => !key.is_empty() && key[key.len() - 1] == b'!',
            None => false,
        }
    }
}

/// The big-endian number in the bytes 20 to 23 of the SHA-512 of an entry. The first 20 bytes are
/// left to references.
#[tactic(auto, unfolding(crate::specs::Cut::boundary_number))]
pub(crate) fn boundary_number(entry: &[u8]) -> u32
    ensures { result ≡ boundary_number entry.now }
{
    let digest = Sha512::digest(entry);
    BigEndian::read_u32(&digest[20..24])
}
