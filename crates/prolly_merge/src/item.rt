//! What a merger of many sends of a record: the record, or the pair that it puts.
ghost use Rattle.std.specs.Prelude.{◌≡◌, List, [], ◌∷◌, ◌++◌, length, ◌+◌, OnOk, OnErr, IfOk, min};
ghost use Rattle.prolly_entry.specs.Record.{Record as RecordValue};
ghost use Rattle.prolly_entry.specs.Overlay.{pairs_of_change};

use prolly_entry::{Pair, Record};
use prolly_link::Out;
use std::alloc::AllocError;
use std::sync::Wait;

/// An item that a merger of many sends.
pub(crate) trait MergeItem: Sized {
    /// The items of a record: one or none.
    ghost items_of: { RecordValue → List Self };

    /// Sends the item of a record, if there is one. Gives the count of items with it.
    fn send_of<O: Out<Self>, R: Wait>(
        rt: &R,
        out: &mut O,
        merged: Record,
        count: u64,
    ) -> Result<u64, AllocError>
        ensures link { O.link out.new ≡ O.link out.old }
        ensures sent { OnOk result (O.sent out.new ≡ O.sent out.old ++ items_of merged) }
        ensures count { IfOk result (λ n.
            n ≡ min (count + length (items_of merged)) 0xFFFF_FFFF_FFFF_FFFF) }
        ensures refused { OnErr result (O.sent out.new ≡ O.sent out.old) };
}

impl MergeItem for Record {
    ghost items_of = { λ r. r ∷ [] };

    fn send_of<O: Out<Record>, R: Wait>(
        rt: &R,
        out: &mut O,
        merged: Record,
        count: u64,
    ) -> Result<u64, AllocError> {
        let size = merged.size();
        match out.send_sized(rt, merged, size) {
            Ok(()) => Ok(count.saturating_add(1)),
            Err(_) => Err(AllocError),
        }
    }
}

impl MergeItem for Pair {
    ghost items_of = { λ r. pairs_of_change r.key r.value };

    fn send_of<O: Out<Pair>, R: Wait>(
        rt: &R,
        out: &mut O,
        merged: Record,
        count: u64,
    ) -> Result<u64, AllocError> {
        let Some(pair) = merged.into_pair() else {
            return Ok(count);
        };
        let size = pair.size();
        match out.send_sized(rt, prepared(pair, out.is_ahead()), size) {
            Ok(()) => Ok(count.saturating_add(1)),
            Err(_) => Err(AllocError),
        }
    }
}

// A pair as it is sent. Where the receiver is far behind, the pair gets its boundary number here,
// if it has none: this thread would wait else.
fn prepared(pair: Pair, is_ahead: bool) -> Pair
    ensures { result ≡ pair }
{
    if is_ahead {
        pair.with_boundary_number()
    } else {
        pair
    }
}
