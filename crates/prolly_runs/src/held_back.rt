//! What becomes of bytes that a sink holds back.

/// What becomes of the bytes that a sink holds back when a run into it ends with a fault.
#[derive(Clone, Copy, Debug, PartialEq, Eq)]
pub enum HeldBack {
    /// They are written: the sink has then all that the run has made.
    Written,
    /// They are lost, and the sink is left alone: it may be a file of which no byte was changed yet.
    Lost,
}
