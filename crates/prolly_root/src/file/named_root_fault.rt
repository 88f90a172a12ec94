//! Why a chunk file names no root.

use prolly_io::HeaderFault;

/// Why a chunk file names no root. A check of the file tells each of these faults as well, and has a
/// text for it.
#[derive(Clone, Copy, Debug, PartialEq, Eq)]
pub enum NamedRootFault {
    /// A read failed.
    Read,
    /// One of the first six bytes may not stand there.
    BadHeader,
    /// The file has no room for a header and an end record, or its header is cut off.
    Truncated,
    /// No end record begins as far before the end as one does.
    BadEnd,
}

impl From<HeaderFault> for NamedRootFault {
    ghost use Rattle.std.specs.Prelude.{◌≡◌};
    ghost use Rattle.prolly_root.specs.NamedRoot.{fault_of_header};

    ghost from_gives = { λ header fault. fault ≡ fault_of_header header };

    fn from(header: HeaderFault) -> Self {
        match header {
            HeaderFault::Truncated => NamedRootFault::Truncated,
            HeaderFault::BadByte => NamedRootFault::BadHeader,
        }
    }
}
