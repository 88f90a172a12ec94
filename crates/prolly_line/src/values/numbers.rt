//! The numbers that the words give.
ghost use Rattle.std.specs.Prelude.{codes};
ghost use Rattle.prolly_line.specs.GivenCommand.{GivesBits, GivesNumberOr, MayGiveChunkBytes};
ghost use Rattle.prolly_line.specs.AcceptedWords.{HasNumber, MayHaveNumber, MayReadNumber};
ghost use Rattle.prolly_line.specs.AcceptedWords.{ReadsNumber, rows_in};

use clap::ArgMatches;

/// A number of 8 bits.
pub(crate) fn byte_of(given: &ArgMatches<'_>, name: &str) -> u8
    requires { HasNumber name.now 0 255 (rows_in given.now) }
    ensures { ReadsNumber 255 name.now (rows_in given.now) result }
{
    given.get_one::<u8>(name).unwrap()
}

/// A number of 8 bits that may be missing.
pub(crate) fn optional_byte_of(given: &ArgMatches<'_>, name: &str) -> Option<u8>
    ensures { MayReadNumber 255 name.now (rows_in given.now) result }
{
    given.get_one::<u8>(name)
}

/// The bits by which a tree is cut, by default 12.
pub(crate) fn bits_of(given: &ArgMatches<'_>) -> u8
    requires { MayHaveNumber (codes "bits") 0 24 (rows_in given.now) }
    ensures { GivesBits (rows_in given.now) result }
{
    optional_byte_of(given, "bits").unwrap_or(12)
}

/// A number of 32 bits that may be missing.
fn optional_number_of(given: &ArgMatches<'_>, name: &str) -> Option<u32>
    ensures { MayReadNumber 4294967295 name.now (rows_in given.now) result }
{
    given.get_one::<u32>(name)
}

/// The bytes that a chunk is to have, where the words say so.
pub(crate) fn chunk_bytes_of(given: &ArgMatches<'_>) -> Option<u32>
    requires { MayHaveNumber (codes "chunk-bytes") 1 1073741824 (rows_in given.now) }
    ensures { MayGiveChunkBytes (rows_in given.now) result }
{
    optional_number_of(given, "chunk-bytes")
}

/// The megabytes of memory that are used, by default 256.
pub(crate) fn memory_of(given: &ArgMatches<'_>) -> u32
    requires { MayHaveNumber (codes "memory") 16 4000 (rows_in given.now) }
    ensures { GivesNumberOr (rows_in given.now) (codes "memory") 16 4000 256 result }
{
    optional_number_of(given, "memory").unwrap_or(256)
}

/// A number of 32 bits.
pub(crate) fn number_of(given: &ArgMatches<'_>, name: &str) -> u32
    requires { HasNumber name.now 0 4294967295 (rows_in given.now) }
    ensures { ReadsNumber 4294967295 name.now (rows_in given.now) result }
{
    given.get_one::<u32>(name).unwrap()
}
