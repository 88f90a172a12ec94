//! Inputs: how much of them commands read, and standard input, which they read whole.
ghost use Rattle.std.specs.Prelude.{◌≡◌, ◌≢◌, ◌≤◌, true, length, IfOk, OnOk, IfErr, IsErrOf};
ghost use Rattle.prolly_answer.specs.Input.{IsReadWhole, IsInputFault};

use prolly_fault::{Fault, INPUT_LIMIT};
use prolly_io::{Source, WholeFault, read_whole};
use std::alloc::Global;

/// How many records a record file has at most.
pub(crate) const RECORD_LIMIT: u32 = 16_777_216;

/// All bytes that a source has left.
pub(crate) fn input_of<S: Source>(alloc: Global, source: &mut S) -> Result<Vec<u8>, Fault>
    ensures whole { (S.seen source.old).is_honest ≡ true →
        IfOk result (λ bytes. bytes.items ≡ (S.seen source.old).left) }
    ensures within { IfOk result (λ bytes. length bytes.items ≤ 1073741824) }
    ensures read_whole { (S.seen source.old).is_honest ≡ true →
        OnOk result (IsReadWhole (S.seen source.old).left
        ((S.seen source.new).failures ≢ (S.seen source.old).failures)) }
    ensures fault { (S.seen source.old).is_honest ≡ true →
        IfErr result (λ fault. IsInputFault (S.seen source.old).left
        ((S.seen source.new).failures ≢ (S.seen source.old).failures) fault) }
    ensures read { (S.seen source.new).failures ≢ (S.seen source.old).failures →
        IsErrOf result Fault.Read }
{
    match read_whole(alloc, source, INPUT_LIMIT) {
        Ok(bytes) => Ok(bytes),
        Err(WholeFault::Memory) => Err(Fault::Memory),
        Err(WholeFault::Read) => Err(Fault::Read),
        Err(WholeFault::TooLong) => Err(Fault::InputTooLong),
    }
}
