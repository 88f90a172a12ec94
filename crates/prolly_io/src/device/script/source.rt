//! A source that fails where a test says so.
ghost use Rattle.std.specs.Prelude.{◌≡◌, ◌≤◌, ◌<◌, ◌↔◌, true, length, drop, min, not, is_some};
ghost use Rattle.std.specs.Prelude.{IsErr, IfOk, OnErr};
ghost use Rattle.prolly_io.specs.Bytes.{are_bytes};
ghost use Rattle.prolly_io.specs.Failures.{CountsFailure};
ghost use Rattle.prolly_io.specs.Script.{after_call};
ghost use Rattle.prolly_io.specs.Source.{HandsOut};

use crate::device::copy::copy_some;
use crate::device::script::count_call;
use crate::device::source::{Source, SourceFault};
use std::marker::Model;

/// Bytes in memory as a source, which gives a fixed number of them at a time and fails once, at a
/// read of choice.
#[derive(Drop)]
pub struct ScriptSource {
    bytes: Vec<u8>,
    at: usize,
    step: usize,
    until_failure: Option<u64>,
    failures: u64,
}

impl Model for ScriptSource {
    ghost use Rattle.std.specs.Prelude.{◌≤◌, ◌<◌, drop, vec_len};
    ghost use Rattle.prolly_io.specs.Script.{SourceScript};

    ghost Value = { SourceScript };

    ghost view = { λ s. record {
      left = drop s.at
          s.bytes.items;
      step = s.step;
      until_failure = s.until_failure;
      failures = s.failures;
    } };

    ghost invariant = { λ s. (s.at ≤ vec_len s.bytes) × (0 < s.step) };
}

impl ScriptSource {
    /// Each read gives `step` bytes, or fewer where the buffer has less room or fewer are left.
    /// Read number `fail_at`, counted from 1, fails, and no other; with `None` and 0 none does.
    pub fn new(bytes: Vec<u8>, step: usize, fail_at: Option<u64>) -> ScriptSource
        requires { 0 < step }
        ensures script { result ≡ record
            { left = bytes.items; step = step; until_failure = fail_at; failures = 0 } }
        ensures honest { (⟦<ScriptSource as Source>⟧.seen result).is_honest ≡ true }
    {
        ScriptSource {
            bytes,
            at: 0,
            step,
            until_failure: fail_at,
            failures: 0,
        }
    }
}

impl Source for ScriptSource {
    ghost use Rattle.std.proofs.Common.{rules};
    ghost use Rattle.prolly_io.specs.BytesLaws.{bytes_from_test};

    ghost seen = { λ s. record {
      is_honest = are_bytes s.left;
      is_steady = not (is_some s.until_failure);
      left = s.left;
      failures = s.failures;
    } };

    ghost left_are_bytes = { Prim.search (rules, bytes_from_test) };

    fn read(&mut self, buf: &mut [u8]) -> Result<usize, SourceFault>
        ensures bound { IfOk result (λ n. n ≤ length buf.new) }
        ensures bytes { HandsOut self.old.left self.new.left result buf.new }
        ensures honest { are_bytes self.old.left ≡ true → are_bytes self.new.left ≡ true }
        ensures failures { CountsFailure self.old.failures self.new.failures result }

        // It follows its script.
        ensures fails { IsErr result ↔ (self.old.until_failure ≡ Some 1) }
        ensures count { IfOk result (λ n. n ≡ min self.old.step
            (min (length buf.old) (length self.old.left))) }
        ensures behind { IfOk result (λ n. drop n buf.new ≡ drop n buf.old) }
        ensures err { OnErr result (buf.new ≡ buf.old) }
        ensures step { self.new.step ≡ self.old.step }
        ensures counted { self.new.until_failure ≡ after_call self.old.until_failure }
    {
        if count_call(&mut self.until_failure) {
            self.failures = self.failures.wrapping_add(1);
            return Err(SourceFault);
        }
        let count = copy_some(&self.bytes[self.at..], self.step, buf);
        self.at += count;
        Ok(count)
    }
}
