//! How an output is written.

/// How an output is written.
#[derive(Clone, Copy, Debug, PartialEq, Eq)]
pub struct WriteMode {
    /// A file beside the output is written, and takes its place once it is whole. Record files,
    /// lines and proofs are written so in any case.
    pub atomic: bool,
    /// The command is done only once the output is on the disk.
    pub sync: bool,
    /// The output is written over even where it is a file of another kind.
    pub force: bool,
}
