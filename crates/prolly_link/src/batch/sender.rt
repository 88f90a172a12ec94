//! The end of a batch link that sends.
ghost use Rattle.std.specs.Prelude.{◌≡◌, ◌<◌, ◌≤◌, ◌+◌, [], ◌∷◌, ◌++◌, ◌⊎◌};
ghost use Rattle.std.specs.Prelude.{OnOk, OnErr, IsOk, IfErr, vec_len, vec_capacity};
ghost use Rattle.prolly_link.specs.Batch.{items_of};
ghost use Rattle.prolly_link.specs.BatchSender.{room_ahead, held_in};

use crate::batch::Batch;
use crate::batch::closed::ClosedBatch;
use crate::ends::Out;
use crate::in_flight::{InFlight, LARGE_BATCH_BYTES};
use crate::message::End;
use crate::sender::Sender;
use crate::waiting::Wake;
use rtrb::Consumer;
use std::alloc::{AllocError, Global};
use std::marker::Model;
use std::mem;
use std::sync::{Arc, Wait};

/// The sending end of a batch link. Contracts see its link, the items that were given to `send`,
/// oldest first, and for how many more it has taken room. They also see how many items a full
/// batch has, and how many bytes the items of the open one take.
#[derive(Drop)]
pub struct BatchSender<T> {
    pub(crate) sender: Sender<Batch<T>>,
    // The items of the open batch: it has room for `size` of them, or has not begun.
    pub(crate) pending: Vec<T>,
    pub(crate) size: usize,
    // How many bytes they take, so far as it was told.
    pub(crate) bytes: usize,
    // The memory of batches that the receiver gave back.
    pub(crate) spares: Consumer<Vec<T>>,
    pub(crate) in_flight: Arc<InFlight>,
    pub(crate) alloc: Global,
}

impl<T> Model for BatchSender<T> {
    ghost use Rattle.std.specs.Prelude.{◌<◌, vec_len, vec_capacity};
    ghost use Rattle.prolly_link.specs.Views.{Batching};
    ghost use Rattle.prolly_link.specs.declared.in_flight.TheConstants.{LARGE_BATCH_BYTES};

    ghost Value = { Batching T };

    ghost use Rattle.prolly_link.specs.BatchSender.{batching_of, room_taken, IsOpenBatch};

    ghost view = { λ s. batching_of s.sender s.pending.items
        (room_taken s.size (vec_capacity s.pending) (vec_len s.pending)) s.size s.bytes };

    ghost invariant = { λ s. IsOpenBatch s.size (vec_capacity s.pending) (vec_len s.pending) ×
        (s.bytes < LARGE_BATCH_BYTES) };
}

// Takes the room of a batch, unless it was taken before. It takes memory that came back from the
// receiver, where there is some.
fn take_room<T: Drop>(
    batch: &mut Vec<T>,
    spares: &mut Consumer<Vec<T>>,
    size: usize,
) -> Result<(), AllocError>
    requires { 0 < vec_len batch.old → size ≤ vec_capacity batch.old }
    ensures items { batch.new.items ≡ batch.old.items }
    ensures len { vec_len batch.new ≡ vec_len batch.old }
    ensures ok { OnOk result (size ≤ vec_capacity batch.new) }
    ensures err { OnErr result ((vec_capacity batch.new ≡ vec_capacity batch.old) ×
        (vec_capacity batch.old < size)) }
{
    if batch.capacity() >= size {
        return Ok(());
    }
    match spares.pop() {
        Ok(mut spare) if spare.capacity() >= size => {
            spare.clear();
            *batch = spare;
            Ok(())
        }
        _ => batch.try_reserve_exact(size),
    }
}

// Sends a batch where it has items. A large one waits until no more than the link's bound is in
// flight with it.
fn send_items<T: Drop, R: Wait>(
    rt: &R,
    sender: &mut Sender<Batch<T>>,
    in_flight: &InFlight,
    items: Vec<T>,
    bytes: usize,
)
    ensures link { sender.new.link ≡ sender.old.link }
    ensures items { items_of sender.new.items ≡ items_of sender.old.items ++ items.items }
{
    if items.is_empty() {
        return;
    }
    let wake = if bytes >= LARGE_BATCH_BYTES {
        in_flight.add(rt, &sender.patience, bytes);
        Wake::AtOnce
    } else {
        Wake::AtHalf
    };
    sender.put(rt, Batch::new(items, bytes), wake);
}

impl<T: Drop> BatchSender<T> {
    /// Sends an item with the others of its batch, waiting for room once the batch is full. It
    /// takes memory where a batch begins, and hands the item back where that is refused.
    pub fn send<R: Wait>(&mut self, rt: &R, item: T) -> Result<(), T>
        ensures link { self.new.link ≡ self.old.link }
        ensures ok { OnOk result (self.new.items ≡ self.old.items ++ item ∷ []) }
        ensures batch { self.new.batch ≡ self.old.batch }
        ensures room { OnOk result (self.new.room + 1 ≡ room_ahead self.old) }
        ensures held { OnOk result (self.new.held ≡ held_in self.new.room self.old.held) }
        ensures err { IfErr result (λ back. (back ≡ item) × (self.new ≡ self.old)) }
        ensures accepts { 0 < self.old.room → IsOk result }
    {
        self.send_sized(rt, item, 0)
    }

    /// As `send`, of an item that takes so many bytes. A batch of 64 KiB or more is sent before it
    /// is full, and waits where the link holds 32 KiB of such batches for each message that it has
    /// room for. No contract speaks of that wait.
    pub fn send_sized<R: Wait>(&mut self, rt: &R, item: T, bytes: usize) -> Result<(), T>
        ensures link { self.new.link ≡ self.old.link }
        ensures ok { OnOk result (self.new.items ≡ self.old.items ++ item ∷ []) }
        ensures batch { self.new.batch ≡ self.old.batch }
        ensures room { OnOk result ((bytes ≡ 0) ⊎ (self.old.held + bytes < 65536) →
            self.new.room + 1 ≡ room_ahead self.old) }
        ensures held { OnOk result (self.new.held ≡ held_in self.new.room (self.old.held + bytes)) }
        ensures err { IfErr result (λ back. (back ≡ item) × (self.new ≡ self.old)) }
        ensures accepts { 0 < self.old.room → IsOk result }
        ensures large { OnOk result (65536 ≤ self.old.held + bytes → self.new.room ≡ 0) }
    {
        let held = self.bytes.saturating_add(bytes);
        let has_room = self.pending.capacity() >= self.size && self.pending.len() + 1 < self.size;
        if has_room && held < LARGE_BATCH_BYTES {
            self.pending.push_reserved(item);
            self.bytes = held;
            return Ok(());
        }
        self.send_at_an_edge(rt, item, bytes)
    }

    // As `send_sized`, where a batch may begin or end with the item. It stands apart so that what
    // all other items take stays small.
    #[inline(never)]
    fn send_at_an_edge<R: Wait>(&mut self, rt: &R, item: T, bytes: usize) -> Result<(), T>
        ensures link { self.new.link ≡ self.old.link }
        ensures ok { OnOk result (self.new.items ≡ self.old.items ++ item ∷ []) }
        ensures batch { self.new.batch ≡ self.old.batch }
        ensures room { OnOk result ((bytes ≡ 0) ⊎ (self.old.held + bytes < 65536) →
            self.new.room + 1 ≡ room_ahead self.old) }
        ensures held { OnOk result (self.new.held ≡ held_in self.new.room (self.old.held + bytes)) }
        ensures err { IfErr result (λ back. (back ≡ item) × (self.new ≡ self.old)) }
        ensures accepts { 0 < self.old.room → IsOk result }
        ensures large { OnOk result (65536 ≤ self.old.held + bytes → self.new.room ≡ 0) }
    {
        if let Err(_) = take_room(&mut self.pending, &mut self.spares, self.size) {
            return Err(item);
        }
        self.pending.push_reserved(item);
        let bytes = self.bytes.saturating_add(bytes);
        if self.pending.len() < self.size && bytes < LARGE_BATCH_BYTES {
            self.bytes = bytes;
            return Ok(());
        }
        let batch = mem::replace(&mut self.pending, Vec::new(self.alloc));
        self.bytes = 0;
        send_items(rt, &mut self.sender, &self.in_flight, batch, bytes);
        self.sender.look_ahead();
        Ok(())
    }

    /// Sends the open batch where it has items, and then the end, waiting for room.
    pub fn close<R: Wait>(self, rt: &R, end: End) -> ClosedBatch<T>
        ensures link { result.link ≡ self.link }
        ensures items { result.items ≡ self.items }
        ensures end { result.end ≡ end }
    {
        let BatchSender {
            mut sender,
            pending,
            size: _,
            bytes,
            spares: _,
            in_flight,
            alloc: _,
        } = self;
        send_items(rt, &mut sender, &in_flight, pending, bytes);
        ClosedBatch {
            sender: sender.close(rt, end),
        }
    }
}

impl<T: Drop> Out<T> for BatchSender<T> {
    type Closed = ClosedBatch<T>;

    ghost link = { λ s. s.link };

    ghost sent = { λ s. s.items };

    ghost closed_link = { λ c. c.link };

    ghost all_sent = { λ c. c.items };

    ghost end_sent = { λ c. c.end };

    fn send<R: Wait>(&mut self, rt: &R, item: T) -> Result<(), T> {
        BatchSender::send(self, rt, item)
    }

    fn send_sized<R: Wait>(&mut self, rt: &R, item: T, bytes: usize) -> Result<(), T> {
        BatchSender::send_sized(self, rt, item, bytes)
    }

    // Of large batches half of the bytes are reached before half of the messages.
    fn is_ahead(&self) -> bool {
        self.sender.is_ahead() || self.in_flight.is_half_full()
    }

    fn close<R: Wait>(self, rt: &R, end: End) -> ClosedBatch<T> {
        BatchSender::close(self, rt, end)
    }
}
