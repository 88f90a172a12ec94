//! A sink that gathers small writes.
ghost use Rattle.std.specs.Prelude.{◌≡◌, ◌≤◌, ◌<◌, ◌↔◌, ◌+◌, true, false, [], length, vec_len, ◌-◌};
ghost use Rattle.std.specs.Prelude.{vec_capacity, IsErr, IfOk, OnOk};
ghost use Rattle.prolly_io.specs.Failures.{CountsFailure, after_failure};
ghost use Rattle.prolly_io.specs.Sink.{Takes, CountsWriteFailure, IsSettled};

use crate::device::sink::{Sink, SinkFault};
use std::alloc::{AllocError, Global};

/// A sink that gathers bytes, and hands them on to another sink in large writes.
///
/// What it holds is handed on where there is no room for more, and at a `flush`; what a dropped one
/// still held is lost, so it is flushed at the end. Once the other sink has failed, or has taken
/// none of some bytes, that sink is left alone: each further call answers `SinkFault`, and what was
/// held stays here, since no one can tell whether the part before it is there.
#[derive(Drop)]
pub struct Buffered<W> {
    sink: W,
    /// What was taken since the last time that all of it had been handed on. It never grows beyond
    /// the memory that it began with.
    held: Vec<u8>,
    /// How many bytes of these were handed on.
    sent: usize,
    ghost within: { sent ≤ vec_len held },
    has_failed: bool,
    failures: u64,
}

impl<W: Sink + Drop> Buffered<W> {
    ghost use Rattle.prolly_io.specs.Buffered.{has_failed, room_of, sink_of, buffer_size};

    /// A buffer of at least so many bytes before the sink. This is all the memory that it takes.
    pub fn with_capacity(alloc: Global, capacity: usize, sink: W) -> Result<Buffered<W>, AllocError>
        ensures taken { IfOk result (λ buffer.
            (⟦<Buffered<W> as Sink>⟧.seen buffer).taken ≡ (W.seen sink).taken) }
        ensures keeping { IfOk result (λ buffer.
            (⟦<Buffered<W> as Sink>⟧.seen buffer).is_keeping ≡ (W.seen sink).is_keeping) }
        ensures settled { IfOk result (λ buffer.
            (⟦<Buffered<W> as Sink>⟧.seen buffer).settled ≡ (W.seen sink).settled) }
        ensures failures { IfOk result (λ buffer.
            (⟦<Buffered<W> as Sink>⟧.seen buffer).failures ≡ 0) }
        ensures sink { IfOk result (λ buffer. (sink_of buffer ≡ sink) ×
            (has_failed buffer ≡ false)) }
        ensures room { IfOk result (λ buffer. (capacity ≤ room_of buffer) ×
            (room_of buffer ≡ buffer_size buffer)) }
    {
        Ok(Buffered {
            sink,
            held: Vec::with_capacity(alloc, capacity)?,
            sent: 0,
            has_failed: false,
            failures: 0,
        })
    }
}

impl<W: Sink> Buffered<W> {
    ghost use Rattle.prolly_io.specs.Buffered.{sink_of, Empties, KeepsBytes, WritesPast};

    /// The sink behind the buffer.
    pub fn sink(&self) -> &W
        ensures { result.now ≡ sink_of self.now }
    {
        &self.sink
    }

    /// Hands on all that is held.
    fn hand_on(&mut self) -> Result<(), SinkFault>
        ensures { Empties W.seen self.old self.new result }
    {
        while self.sent < self.held.len() {
            match self.sink.write(&self.held[self.sent..]) {
                Ok(0) | Err(_) => return Err(self.failed()),
                Ok(count) => self.sent += count,
            }
        }
        self.sent = 0;
        self.held.clear();
        Ok(())
    }

    /// Has the other sink take bytes, before which nothing is held.
    fn pass(&mut self, buf: &[u8]) -> Result<usize, SinkFault>
        requires { self.old.held.items ≡ [] }
        ensures { WritesPast W.seen self.old self.new result buf.now }
    {
        match self.sink.write(buf) {
            Ok(0) if !buf.is_empty() => Err(self.failed()),
            Ok(count) => Ok(count),
            Err(_) => Err(self.failed()),
        }
    }

    /// Keeps bytes for which there is room.
    fn hold(&mut self, buf: &[u8])
        requires { length buf.now ≤ vec_capacity self.old.held - vec_len self.old.held }
        ensures { KeepsBytes self.old self.new buf.now }
    {
        let Ok(()) = self.held.extend_from_slice(buf) else {
            unreachable!();
        };
    }

    /// Notes that a call failed.
    fn failed(&mut self) -> SinkFault
        ensures { self.new ≡ record self.old {
          has_failed = true;
          failures = after_failure self.old.failures;
        } }
    {
        self.has_failed = true;
        self.failures = self.failures.wrapping_add(1);
        SinkFault
    }
}

impl<W: Sink> Sink for Buffered<W> {
    ghost use Rattle.prolly_io.specs.Buffered.{bytes_taken, has_failed, room_of, seen_before};
    ghost use Rattle.prolly_io.specs.Buffered.{sink_of, buffer_size, FailsWithSink, AreHeld};

    ghost seen = { seen_before W.seen };

    fn write(&mut self, buf: &[u8]) -> Result<usize, SinkFault>
        ensures bound { IfOk result (λ n. n ≤ length buf.now) }
        ensures bytes { (W.seen (sink_of self.old)).is_keeping ≡ true →
            Takes (bytes_taken W.seen self.old) (bytes_taken W.seen self.new) result buf.now }
        ensures keeping { (W.seen (sink_of self.old)).is_keeping ≡ true →
            (W.seen (sink_of self.new)).is_keeping ≡ true }
        ensures failures { CountsWriteFailure self.old.failures self.new.failures result buf.now }

        // It fails where the other sink does, and leaves that alone from then on.
        ensures cause { has_failed self.old ≡ false →
            FailsWithSink W.seen self.old self.new result }
        ensures failed { IsErr result ↔ (has_failed self.new ≡ true) }
        ensures faulty { has_failed self.old ≡ true → IsErr result }
        ensures alone { has_failed self.old ≡ true → sink_of self.new ≡ sink_of self.old }

        // What there is room for is held back; else what was held is handed on.
        ensures held { has_failed self.old ≡ false → length buf.now < room_of self.old →
            AreHeld self.old self.new result buf.now }
        ensures emptied { room_of self.old < length buf.now →
            OnOk result (buffer_size self.old ≤ room_of self.new + length buf.now) }
        ensures size { OnOk result (buffer_size self.old ≤ buffer_size self.new) }
    {
        if self.has_failed {
            return Err(self.failed());
        }
        if buf.len() > self.held.capacity() - self.held.len() {
            self.hand_on()?;
        }
        if buf.len() >= self.held.capacity() {
            return self.pass(buf);
        }
        self.hold(buf);
        Ok(buf.len())
    }

    /// Hands on all that is held, and flushes the other sink.
    fn flush(&mut self) -> Result<(), SinkFault>
        ensures bytes { (W.seen (sink_of self.old)).is_keeping ≡ true →
            bytes_taken W.seen self.new ≡ bytes_taken W.seen self.old }
        ensures keeping { (W.seen (sink_of self.old)).is_keeping ≡ true →
            (W.seen (sink_of self.new)).is_keeping ≡ true }
        ensures failures { CountsFailure self.old.failures self.new.failures result }

        // The other sink has all that was taken, and holds none of it back.
        ensures through { (W.seen (sink_of self.old)).is_keeping ≡ true →
            OnOk result ((W.seen (sink_of self.new)).taken ≡ bytes_taken W.seen self.new) }
        ensures settled { OnOk result (IsSettled (seen_before W.seen self.new)) }

        // It fails where the other sink does, and leaves that alone from then on.
        ensures cause { has_failed self.old ≡ false →
            FailsWithSink W.seen self.old self.new result }
        ensures failed { IsErr result ↔ (has_failed self.new ≡ true) }
        ensures faulty { has_failed self.old ≡ true → IsErr result }
        ensures alone { has_failed self.old ≡ true → sink_of self.new ≡ sink_of self.old }

        // Nothing is held.
        ensures room { OnOk result ((room_of self.new ≡ buffer_size self.old) ×
            (buffer_size self.new ≡ buffer_size self.old)) }
    {
        if self.has_failed {
            return Err(self.failed());
        }
        self.hand_on()?;
        match self.sink.flush() {
            Ok(()) => Ok(()),
            Err(_) => Err(self.failed()),
        }
    }
}
