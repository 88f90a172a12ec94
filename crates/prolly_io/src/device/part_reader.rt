//! Reading a source part by part, until there are so many bytes.
ghost use Rattle.std.specs.Prelude.{◌≡◌, ◌≢◌, ◌↔◌, ◌<◌, ◌≤◌, ◌++◌, [], true, false, length, take, vec_len};
ghost use Rattle.std.specs.Prelude.{IfOk, IsErrOf, OnOk};

use crate::device::source::{Source, SourceFault};
use std::alloc::{AllocError, Global};
use std::error::Error;
use std::fmt;
use std::fmt::{Display, Formatter};
use std::marker::Model;

/// How many bytes are asked for at a time.
const PART_BYTES: usize = 65_536;

/// Why no more bytes of a source were read.
#[derive(Clone, Copy, Debug, PartialEq, Eq)]
pub enum ReadFault {
    /// Memory was refused.
    Memory,
    /// The source failed.
    Read,
}

impl Display for ReadFault {
    ghost use Rattle.std.specs.Prelude.{Some};
    ghost use Rattle.prolly_io.specs.FaultTexts.{read_fault_text};

    ghost output = { λ fault. Some (read_fault_text fault) };

    fn fmt<W: fmt::Write>(&self, f: &mut Formatter<W>) -> fmt::Result {
        match self {
            ReadFault::Memory => f.write_str("out of memory"),
            ReadFault::Read => f.write_str("read failed"),
        }
    }
}

impl Error for ReadFault {}

impl From<AllocError> for ReadFault {
    ghost use Rattle.prolly_io.specs.declared.device.part_reader.ReadFault.TheVariants.{Memory};

    ghost from_gives = { λ _ fault. fault ≡ Memory };

    fn from(_: AllocError) -> Self {
        ReadFault::Memory
    }
}

impl From<SourceFault> for ReadFault {
    ghost use Rattle.prolly_io.specs.declared.device.part_reader.ReadFault.TheVariants.{Read};

    ghost from_gives = { λ _ fault. fault ≡ Read };

    fn from(_: SourceFault) -> Self {
        ReadFault::Read
    }
}

/// Reads the bytes of sources, 64 KiB at a time, for which it has room.
#[derive(Drop)]
pub struct PartReader {
    part: Vec<u8>,
}

// What stands in its room is of no matter, so nothing is seen of it.
impl Model for PartReader {
    ghost Value = { Unit {0} };

    ghost view = { λ _. tt };

    ghost invariant = { λ reader. 0 < vec_len reader.part };
}

impl PartReader {
    /// A reader. Takes 64 KiB of memory.
    pub fn new(alloc: Global) -> Result<PartReader, AllocError> {
        let part = vec![in alloc; 0; PART_BYTES]?;
        Ok(PartReader { part })
    }

    /// Reads on until there are so many bytes, or the source is at its end. Answers whether it is.
    /// Reads no byte behind the last one that is wanted.
    ///
    /// Takes memory as bytes come, and not for as many as are wanted.
    pub fn read_up_to<S: Source>(
        &mut self,
        source: &mut S,
        bytes: &mut Vec<u8>,
        wanted: usize,
    ) -> Result<bool, ReadFault>
        ensures bytes { (S.seen source.old).is_honest ≡ true → OnOk result (bytes.old.items
            ++ (S.seen source.old).left ≡ bytes.new.items ++ (S.seen source.new).left) }
        ensures over { (S.seen source.old).is_honest ≡ true →
            IfOk result (λ is_over. is_over ≡ true → (S.seen source.new).left ≡ []) }
        ensures short { IfOk result (λ is_over. is_over ≡ true → vec_len bytes.new < wanted) }
        ensures enough { IfOk result (λ is_over. is_over ≡ false → wanted ≤ vec_len bytes.new) }
        ensures within { vec_len bytes.old ≤ wanted → OnOk result (vec_len bytes.new ≤ wanted) }
        ensures grows { OnOk result
            (take (length bytes.old.items) bytes.new.items ≡ bytes.old.items) }
        ensures read { IsErrOf result ReadFault.Read ↔
            ((S.seen source.new).failures ≢ (S.seen source.old).failures) }
        ensures unfailed { OnOk result
            ((S.seen source.new).failures ≡ (S.seen source.old).failures) }
        ensures never { (S.seen source.old).is_steady ≡ true →
            (S.seen source.new).failures ≡ (S.seen source.old).failures }
        ensures honest { (S.seen source.old).is_honest ≡ true →
            (S.seen source.new).is_honest ≡ true }
        ensures steady { (S.seen source.old).is_steady ≡ true →
            (S.seen source.new).is_steady ≡ true }
    {
        let part = self.part.as_mut_slice();
        while bytes.len() < wanted {
            let room = part.len().min(wanted - bytes.len());
            let count = source.read(&mut part[..room])?;
            if count == 0 {
                return Ok(true);
            }
            bytes.extend_from_slice(&part[..count])?;
        }
        Ok(false)
    }
}
