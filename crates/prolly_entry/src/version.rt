//! Versions of the chunk file.

/// The version of a chunk file: it says how a child entry is spelled.
#[derive(Clone, Copy, Debug, PartialEq, Eq)]
pub enum Version {
    /// A child entry has its key and its reference.
    One,
    /// A child entry has its key, its reference and the number of pairs below it, so that a pair
    /// can be found by its number.
    Two,
}

impl Version {
    ghost use Rattle.std.specs.Prelude.{◌≡◌, ◌≢◌, IfSome, IfNone};
    ghost use Rattle.prolly_entry.specs.Version.{version_byte};

    /// The version that a byte of a file's header stands for: 1 and 2 are versions.
    pub fn of(byte: u8) -> Option<Version>
        ensures some { IfSome result (λ version. version_byte version ≡ byte) }
        ensures none { IfNone result ((byte ≢ 1) × (byte ≢ 2)) }
    {
        match byte {
            1 => Some(Version::One),
            2 => Some(Version::Two),
            _ => None,
        }
    }

    /// The byte that stands for the version in a file's header.
    pub fn to_byte(self) -> u8
        ensures { result ≡ version_byte self }
    {
        match self {
            Version::One => 1,
            Version::Two => 2,
        }
    }

    /// The other version. A reader that was asked for one looks for the other, too, to tell a wrong
    /// version from bytes that are of none.
    pub fn other(self) -> Version
        ensures { result ≢ self }
    {
        match self {
            Version::One => Version::Two,
            Version::Two => Version::One,
        }
    }
}
