//! All records of bytes.
ghost use Rattle.std.specs.Prelude.{◌≡◌, ◌≤◌, ◌++◌, ◌∷◌, [], length, take, drop, ◌-◌, IfOk, IfErr};
ghost use Rattle.std.specs.Prelude.{OnOk};
ghost use Rattle.prolly_entry.specs.Overlay.{pairs_of_change};
ghost use Rattle.prolly_entry.specs.Record.{IsRecord};
ghost use Rattle.prolly_entry.specs.RecordAt.{LiesIn, record_at};
ghost use Rattle.prolly_entry.specs.RecordList.{ArePairsOf, IsFaultOf, record_fault};

use crate::fault_text::FaultText;
use crate::next::{Flaw, NextRecord, RecordAt, next_record};
use crate::pair::Pair;
use std::alloc::{AllocError, Global};
use std::error::Error;
use std::fmt;
use std::fmt::{Display, Formatter};

/// Why bytes are no record file. A place is the number of good records before the flawed one, so
/// the flawed one's own number, counted from 0.
#[derive(Clone, Copy, Debug, PartialEq, Eq)]
pub enum RecordFault {
    /// Memory was refused.
    Memory,
    /// The bytes end inside the record.
    Truncated { place: u32 },
    /// The key's length is over 1,024.
    KeyTooLong { place: u32 },
    /// The value's length is over 65,536, and marks no removal.
    ValueTooLong { place: u32 },
    /// The key is not greater than the key of the record before.
    OutOfOrder { place: u32 },
    /// As many records as are allowed are good, and a further byte follows.
    TooManyRecords,
}

impl RecordFault {
    ghost use Rattle.prolly_entry.specs.FaultTexts.{record_fault_text, shown_text};

    /// What is said of it.
    fn text(self) -> FaultText
        ensures { shown_text result ≡ record_fault_text self }
    {
        match self {
            RecordFault::Memory => FaultText::Plain("out of memory"),
            RecordFault::Truncated { place } => {
                FaultText::Holding("record ", u64::from(place), " is cut")
            }
            RecordFault::KeyTooLong { place } => {
                FaultText::Holding("record ", u64::from(place), ": key too long")
            }
            RecordFault::ValueTooLong { place } => {
                FaultText::Holding("record ", u64::from(place), ": value too long")
            }
            RecordFault::OutOfOrder { place } => {
                FaultText::Holding("record ", u64::from(place), ": key out of order")
            }
            RecordFault::TooManyRecords => FaultText::Plain("too many records"),
        }
    }
}

impl Display for RecordFault {
    ghost use Rattle.std.specs.Prelude.{Some};
    ghost use Rattle.prolly_entry.specs.FaultTexts.{record_fault_text};

    ghost output = { λ fault. Some (record_fault_text fault) };

    fn fmt<W: fmt::Write>(&self, f: &mut Formatter<W>) -> fmt::Result {
        self.text().fmt(f)
    }
}

impl Error for RecordFault {}

impl From<AllocError> for RecordFault {
    ghost use Rattle.prolly_entry.specs.declared.record_file.RecordFault.TheVariants.{Memory};

    ghost from_gives = { λ _ fault. fault ≡ Memory };

    fn from(_: AllocError) -> Self {
        RecordFault::Memory
    }
}

/// The pairs that the records of a record file put, in the order of their keys, where the bytes are
/// such a file with at most `limit` records. A removal counts as a record, and puts no pair.
///
/// One pass, in time linear in the bytes; takes memory for the pairs that are answered and nothing
/// else.
pub fn records(alloc: Global, bytes: &[u8], limit: u32) -> Result<Vec<Pair>, RecordFault>
    ensures ok { IfOk result (λ pairs. ArePairsOf bytes.now limit pairs.items) }
    ensures err { IfErr result (λ fault. IsFaultOf bytes.now limit fault) }
{
    let mut pairs = Vec::new(alloc);
    let mut last_key = None;
    let mut count = 0;
    let mut rest = bytes;
    loop {
        match next_record(limit, count, last_key, rest) {
            NextRecord::Record(at) => {
                push_put(&mut pairs, alloc, rest, at)?;
                last_key = Some(at.key(rest));
                rest = &rest[at.len..];
            }
            NextRecord::More => {
                if rest.is_empty() {
                    return Ok(pairs);
                }
                return Err(RecordFault::Truncated { place: count });
            }
            NextRecord::Flawed(flaw) => return Err(fault_of(flaw, count)),
        }
        count += 1;
    }
}

/// Adds a copy of the pair that the record puts which lies there, if it puts one.
fn push_put(
    pairs: &mut Vec<Pair>,
    alloc: Global,
    bytes: &[u8],
    at: RecordAt,
) -> Result<(), AllocError>
    requires lies { LiesIn bytes.now at }
    requires lawful { IsRecord (record_at bytes.now at) }
    ensures { OnOk result (pairs.new.items ≡ pairs.old.items ++
        pairs_of_change (record_at bytes.now at).key (record_at bytes.now at).value) }
{
    if let Some(value) = at.value(bytes) {
        pairs.push(Pair::copy_of(alloc, at.key(bytes), value)?)?;
    }
    Ok(())
}

/// The fault that a flaw at a place is.
fn fault_of(flaw: Flaw, place: u32) -> RecordFault
    ensures { result ≡ record_fault flaw place }
{
    match flaw {
        Flaw::Truncated => RecordFault::Truncated { place },
        Flaw::KeyTooLong => RecordFault::KeyTooLong { place },
        Flaw::ValueTooLong => RecordFault::ValueTooLong { place },
        Flaw::OutOfOrder => RecordFault::OutOfOrder { place },
        Flaw::TooManyRecords => RecordFault::TooManyRecords,
    }
}
