//! Devices: bytes that can be read at any offset.
ghost use Rattle.std.specs.Prelude.{◌≡◌, ◌≤◌, true, length, IfOk};
ghost use Rattle.prolly_io.specs.Device.{DeviceView, GivesFrom};
ghost use Rattle.prolly_io.specs.Failures.{CountsFailure};

use crate::device::source::SourceFault;

/// What gives bytes from any offset on, such as a file on a disk.
pub trait Device {
    /// What a contract sees of it: whether it is honest, its bytes, and how many calls failed. An
    /// honest device gives the bytes that stand there, and they stay as they are.
    ghost seen: { Self → DeviceView };

    /// The number of its bytes.
    fn len(&mut self) -> Result<u64, SourceFault>
        ensures length { (seen self.old).is_honest ≡ true →
            IfOk result (λ n. n ≡ length (seen self.old).bytes) }
        ensures honest { (seen self.old).is_honest ≡ true → (seen self.new).is_honest ≡ true }
        ensures same { (seen self.old).is_honest ≡ true →
            (seen self.new).bytes ≡ (seen self.old).bytes }
        ensures failures { CountsFailure (seen self.old).failures (seen self.new).failures result };

    /// Puts the bytes from this offset on, counted from 0, at the start of `buf`, and answers how
    /// many: fewer than it has room for only where the device has no more.
    ///
    /// What a failed read leaves in `buf` is not said, nor what any read leaves behind the bytes
    /// that it gave.
    fn read_at(&mut self, offset: u64, buf: &mut [u8]) -> Result<usize, SourceFault>
        ensures bound { IfOk result (λ n. n ≤ length buf.new) }
        ensures bytes { (seen self.old).is_honest ≡ true →
            GivesFrom (seen self.old).bytes offset result buf.new }
        ensures honest { (seen self.old).is_honest ≡ true → (seen self.new).is_honest ≡ true }
        ensures same { (seen self.old).is_honest ≡ true →
            (seen self.new).bytes ≡ (seen self.old).bytes }
        ensures failures { CountsFailure (seen self.old).failures (seen self.new).failures result };
}
