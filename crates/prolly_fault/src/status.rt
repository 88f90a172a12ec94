//! The statuses with which the program ends.

/// The command is done.
pub const DONE: u8 = 0;

/// A look-up found nothing, `diff` found a change, or `explain` a flaw.
pub const NOTHING: u8 = 1;

/// The words are not understood.
pub const WORDS: u8 = 2;

/// A record file, a line or a list of keys is at fault, there are too many files, or the bits or
/// the format of an `apply` are wrong.
pub const RECORDS: u8 = 3;

/// A chunk file or a proof is refused.
pub const CHUNKS: u8 = 4;

/// A file can't be opened, read, written, replaced or written over, or an input that is no chunk
/// file is too long.
pub const FILES: u8 = 5;

/// Memory or a thread was refused, or a thread was lost.
pub const RESOURCES: u8 = 6;

/// The tree has too many levels.
pub const TOO_TALL: u8 = 7;
