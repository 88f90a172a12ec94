//! The next record of a record file: where its parts lie, or what is wrong with it.
ghost use Rattle.std.specs.Prelude.{◌≢◌, ℕ, ◌≡◌};
ghost use Rattle.std.specs.Option.{option_copied};
ghost use Rattle.prolly_entry.specs.Front.{IsRecordAt};
ghost use Rattle.prolly_entry.specs.NextRecord.{IsNextRecord};
ghost use Rattle.prolly_entry.specs.RecordAt.{LiesIn, record_at};

use crate::front::{FrontRecord, front_record};
use crate::pair::key_rises;
use crate::spelling::KEY_START;

/// What bytes say of the next record of a record file, where more bytes may follow them.
#[derive(Clone, Copy)]
pub enum NextRecord {
    /// One more good record, whose parts lie there.
    Record(RecordAt),
    /// The bytes are a part of a record, or there are none. Where they are all that is left, the
    /// file is cut, or clean.
    More,
    /// The record is flawed, whatever follows the bytes.
    Flawed(Flaw),
}

/// The next record behind `count` good ones, of which at most `limit` are allowed and the last one
/// has the key `last_key`.
pub fn next_record(limit: u32, count: u32, last_key: Option<&[u8]>, bytes: &[u8]) -> NextRecord
    ensures { IsNextRecord limit count (option_copied last_key.entry) bytes.now result }
{
    if bytes.is_empty() {
        return NextRecord::More;
    }
    if count == limit {
        return NextRecord::Flawed(Flaw::TooManyRecords);
    }
    match front_record(bytes) {
        FrontRecord::Put {
            key_end,
            value_start,
            len,
        } => {
            let value_start = Some(value_start);
            rising(
                last_key,
                bytes,
                RecordAt {
                    key_end,
                    value_start,
                    len,
                },
            )
        }
        FrontRecord::Remove { key_end, len } => {
            let value_start = None;
            rising(
                last_key,
                bytes,
                RecordAt {
                    key_end,
                    value_start,
                    len,
                },
            )
        }
        FrontRecord::More => NextRecord::More,
        FrontRecord::KeyTooLong => NextRecord::Flawed(Flaw::KeyTooLong),
        FrontRecord::ValueTooLong => NextRecord::Flawed(Flaw::ValueTooLong),
    }
}

/// The record that lies there, where its key is greater than the last one.
fn rising(last_key: Option<&[u8]>, bytes: &[u8], at: RecordAt) -> NextRecord
    requires lies { LiesIn bytes.now at }
    requires there { IsRecordAt bytes.now (record_at bytes.now at) at.len }
    ensures { (limit count : ℕ) → count ≢ limit →
        IsNextRecord limit count (option_copied last_key.entry) bytes.now result }
{
    if key_rises(last_key, at.key(bytes)) {
        NextRecord::Record(at)
    } else {
        NextRecord::Flawed(Flaw::OutOfOrder)
    }
}

/// Where the parts of a record lie in the bytes that it begins.
#[derive(Clone, Copy)]
pub struct RecordAt {
    /// Where its key ends.
    pub key_end: usize,
    /// Where the value begins that it puts, up to its end; none where it removes its key.
    pub value_start: Option<usize>,
    /// How many bytes its spelling has.
    pub len: usize,
}

impl RecordAt {
    /// The key of the record, which begins these bytes.
    pub fn key(self, bytes: &[u8]) -> &[u8]
        requires { LiesIn bytes.now self }
        ensures { result.now ≡ (record_at bytes.now self).key }
    {
        &bytes[KEY_START..self.key_end]
    }

    /// The value that the record puts, or none where it removes its key.
    pub fn value(self, bytes: &[u8]) -> Option<&[u8]>
        requires { LiesIn bytes.now self }
        ensures { option_copied result ≡ (record_at bytes.now self).value }
    {
        match self.value_start {
            Some(start) => Some(&bytes[start..self.len]),
            None => None,
        }
    }
}

/// What is wrong with the record that follows the good ones of a record file.
#[derive(Clone, Copy, Debug, PartialEq, Eq)]
pub enum Flaw {
    /// The bytes end inside the record.
    Truncated,
    /// The key's length is over 1,024.
    KeyTooLong,
    /// The value's length is over 65,536, and is not the number that marks a removal.
    ValueTooLong,
    /// The key is not greater than the key of the record before. An equal key is out of order too.
    OutOfOrder,
    /// As many records as are allowed are good, and a further byte follows.
    TooManyRecords,
}
