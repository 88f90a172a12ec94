//! A device that fails where a test says so.
ghost use Rattle.std.specs.Prelude.{◌≡◌, ◌≤◌, ◌↔◌, true, length, IsErr, IfOk};
ghost use Rattle.prolly_io.specs.Device.{GivesFrom};
ghost use Rattle.prolly_io.specs.Failures.{CountsFailure};
ghost use Rattle.prolly_io.specs.Script.{after_call};

use crate::device::copy::copy_from;
use crate::device::read_at::Device;
use crate::device::script::count_call;
use crate::device::source::SourceFault;

/// Bytes in memory as a device, which fails once, at a call of choice.
#[derive(Drop)]
pub struct ScriptDevice {
    bytes: Vec<u8>,
    until_failure: Option<u64>,
    failures: u64,
}

impl ScriptDevice {
    /// Call number `fail_at`, counted from 1, fails, and no other; with `None` and 0 none does.
    pub fn new(bytes: Vec<u8>, fail_at: Option<u64>) -> ScriptDevice
        ensures { ⟦<ScriptDevice as Device>⟧.seen result ≡ record
            { is_honest = true; bytes = bytes.items; failures = 0 } }
    {
        ScriptDevice {
            bytes,
            until_failure: fail_at,
            failures: 0,
        }
    }

    /// Counts one call, which fails where it is the one of choice.
    fn call(&mut self) -> Result<(), SourceFault>
        ensures bytes { self.new.bytes ≡ self.old.bytes }
        ensures fails { IsErr result ↔ (self.old.until_failure ≡ Some 1) }
        ensures counted { self.new.until_failure ≡ after_call self.old.until_failure }
        ensures failures { CountsFailure self.old.failures self.new.failures result }
    {
        if count_call(&mut self.until_failure) {
            self.failures = self.failures.wrapping_add(1);
            return Err(SourceFault);
        }
        Ok(())
    }
}

impl Device for ScriptDevice {
    ghost seen = { λ device. record {
      is_honest = true;
      bytes = device.bytes.items;
      failures = device.failures;
    } };

    fn len(&mut self) -> Result<u64, SourceFault>
        ensures length { IfOk result (λ n. n ≡ length self.old.bytes.items) }
        ensures same { self.new.bytes ≡ self.old.bytes }
        ensures failures { CountsFailure self.old.failures self.new.failures result }

        // It follows its script.
        ensures fails { IsErr result ↔ (self.old.until_failure ≡ Some 1) }
        ensures counted { self.new.until_failure ≡ after_call self.old.until_failure }
    {
        self.call()?;
        Ok(self.bytes.len() as u64)
    }

    fn read_at(&mut self, offset: u64, buf: &mut [u8]) -> Result<usize, SourceFault>
        ensures bound { IfOk result (λ n. n ≤ length buf.new) }
        ensures bytes { GivesFrom self.old.bytes.items offset result buf.new }
        ensures same { self.new.bytes ≡ self.old.bytes }
        ensures failures { CountsFailure self.old.failures self.new.failures result }

        // It follows its script.
        ensures fails { IsErr result ↔ (self.old.until_failure ≡ Some 1) }
        ensures counted { self.new.until_failure ≡ after_call self.old.until_failure }
    {
        self.call()?;
        Ok(copy_from(&self.bytes, offset, buf))
    }
}
