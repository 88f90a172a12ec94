//! A sink that fails where a test says so.
ghost use Rattle.std.specs.Prelude.{◌≡◌, ◌≤◌, ◌↔◌, true, [], length, min, IsErr, IfOk};
ghost use Rattle.prolly_io.specs.Failures.{CountsFailure};
ghost use Rattle.prolly_io.specs.Script.{after_call};
ghost use Rattle.prolly_io.specs.Sink.{Takes, CountsWriteFailure};

use crate::device::script::count_call;
use crate::device::sink::{Sink, SinkFault};
use std::alloc::Global;
use std::marker::Model;

/// A sink that keeps in memory what it takes, takes a fixed number of bytes at a time and fails
/// once, at a call of choice.
#[derive(Drop)]
pub struct ScriptSink {
    taken: Vec<u8>,
    step: usize,
    until_failure: Option<u64>,
    failures: u64,
}

impl Model for ScriptSink {
    ghost use Rattle.prolly_io.specs.Script.{SinkScript};

    ghost Value = { SinkScript };

    ghost view = { λ s. record {
      taken = s.taken.items;
      step = s.step;
      until_failure = s.until_failure;
      failures = s.failures;
    } };
}

impl ScriptSink {
    /// Each write takes `step` bytes, or the whole slice where it is shorter; a step of 0 takes
    /// none. Call number `fail_at`, writes and flushes counted together from 1, fails; with `None`
    /// and 0 none does. A write also fails where memory for its bytes is refused.
    pub fn new(alloc: Global, step: usize, fail_at: Option<u64>) -> ScriptSink
        ensures { result ≡ record
            { taken = []; step = step; until_failure = fail_at; failures = 0 } }
    {
        ScriptSink {
            taken: Vec::new(alloc),
            step,
            until_failure: fail_at,
            failures: 0,
        }
    }

    /// The bytes that were taken.
    pub fn taken(&self) -> &[u8]
        ensures { result.now ≡ self.now.taken }
    {
        self.taken.as_slice()
    }
}

impl Sink for ScriptSink {
    ghost seen = { λ s. record {
      is_keeping = true;
      taken = s.taken;
      settled = s.taken;
      failures = s.failures;
    } };

    fn write(&mut self, buf: &[u8]) -> Result<usize, SinkFault>
        ensures bound { IfOk result (λ n. n ≤ length buf.now) }
        ensures bytes { Takes self.old.taken self.new.taken result buf.now }
        ensures failures { CountsWriteFailure self.old.failures self.new.failures result buf.now }

        // It follows its script. It may fail at other calls too, where memory is refused.
        ensures fails { self.old.until_failure ≡ Some 1 → IsErr result }
        ensures count { IfOk result (λ n. n ≡ min self.old.step (length buf.now)) }
        ensures step { self.new.step ≡ self.old.step }
        ensures counted { self.new.until_failure ≡ after_call self.old.until_failure }
    {
        if count_call(&mut self.until_failure) {
            self.failures = self.failures.wrapping_add(1);
            return Err(SinkFault);
        }
        let count = self.step.min(buf.len());
        if self.taken.extend_from_slice(&buf[..count]).is_err() {
            self.failures = self.failures.wrapping_add(1);
            return Err(SinkFault);
        }
        if count == 0 && !buf.is_empty() {
            self.failures = self.failures.wrapping_add(1);
        }
        Ok(count)
    }

    fn flush(&mut self) -> Result<(), SinkFault>
        ensures bytes { self.new.taken ≡ self.old.taken }
        ensures failures { CountsFailure self.old.failures self.new.failures result }

        // It follows its script.
        ensures fails { IsErr result ↔ (self.old.until_failure ≡ Some 1) }
        ensures step { self.new.step ≡ self.old.step }
        ensures counted { self.new.until_failure ≡ after_call self.old.until_failure }
    {
        if count_call(&mut self.until_failure) {
            self.failures = self.failures.wrapping_add(1);
            return Err(SinkFault);
        }
        Ok(())
    }
}
