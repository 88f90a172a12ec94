//! What goes over a link, and what its receiver is given.

use crate::fault::RunFault;

/// An item, or the end.
#[derive(Drop)]
pub(crate) enum Message<T> {
    Item(T),
    Last(End),
}

/// What follows the last item: nothing more to say, or why there are no more items.
#[derive(Clone, Copy, PartialEq, Eq, Debug)]
pub enum End {
    /// All items came.
    Clean,
    /// Items may be lacking, for this fault.
    Fault(RunFault),
}

/// An item, or why there is none.
#[derive(Drop, PartialEq, Eq, Debug)]
pub enum Next<T> {
    /// The next item.
    Item(T),
    /// No more items come.
    End(End),
    /// No message came, and the sender seems to be gone without an end. No contract says that it
    /// is.
    Lost,
}

/// Whether a receiver has given its end, or that it has lost its sender.
#[derive(Clone, Copy, PartialEq, Eq, Debug)]
pub enum Progress {
    /// It has given neither.
    Open,
    /// It has given this end.
    Ended(End),
    /// It has lost its sender, and has given [`Next::Lost`].
    Lost,
}
