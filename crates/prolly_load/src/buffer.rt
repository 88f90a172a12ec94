//! The buffer that records are parsed in.
use prolly_entry::{KEY_LIMIT, LENGTHS_SIZE, VALUE_LIMIT};
use prolly_io::ReadBuffer;

/// The size of the longest record: two lengths, a key and a value.
const RECORD_BYTES: usize = LENGTHS_SIZE + KEY_LIMIT + VALUE_LIMIT;

/// The bytes of a record file that were read and belong to no record yet. The key of the record
/// before them is kept, and is compared where it was read.
pub(crate) type Buffer = ReadBuffer<KEY_LIMIT, RECORD_BYTES>;
