//! Where runs wait until they are merged.
ghost use Rattle.std.specs.Prelude.{◌≡◌, [], true, Bool, IfOk};
ghost use Rattle.prolly_io.specs.Sink.{IsSettled};

use prolly_io::{Sink, Source, WriteFault};
use std::alloc::AllocError;
use std::error::Error;
use std::fmt;
use std::fmt::{Display, Formatter};

/// Why runs can't wait, or be merged.
#[derive(Clone, Copy, Debug, PartialEq, Eq)]
pub enum StoreFault {
    /// Memory was refused.
    Memory,
    /// A file for a run can't be made.
    Make,
    /// A file for a run took only a part of what was written.
    Write,
    /// The file of a run can't be read back.
    Read,
    /// A file for a run would have more than 4,294,967,295 records; or each key is to come once, and
    /// more records came than have numbers.
    TooMany,
}

impl Display for StoreFault {
    ghost use Rattle.std.specs.Prelude.{Some};
    ghost use Rattle.prolly_sort.specs.FaultTexts.{store_text};

    ghost output = { λ fault. Some (store_text fault) };

    fn fmt<W: fmt::Write>(&self, f: &mut Formatter<W>) -> fmt::Result {
        match self {
            StoreFault::Memory => f.write_str("out of memory"),
            StoreFault::Make => f.write_str("a file for a run can't be made"),
            StoreFault::Write => f.write_str("write failed"),
            StoreFault::Read => f.write_str("the file of a run can't be read"),
            StoreFault::TooMany => f.write_str("too many records"),
        }
    }
}

impl Error for StoreFault {}

impl From<AllocError> for StoreFault {
    ghost use Rattle.prolly_sort.specs.declared.store.StoreFault.TheVariants.{Memory};

    ghost from_gives = { λ _ fault. fault ≡ Memory };

    fn from(_: AllocError) -> Self {
        StoreFault::Memory
    }
}

impl From<WriteFault> for StoreFault {
    ghost use Rattle.prolly_sort.specs.declared.store.StoreFault.TheVariants.{Write};

    ghost from_gives = { λ _ fault. fault ≡ Write };

    fn from(_: WriteFault) -> Self {
        StoreFault::Write
    }
}

/// Makes the files in which runs wait. Each is a `W` while it is written, and then an `S`, which is
/// read from its start.
pub trait RunStore<W: Sink, S: Source> {
    /// Whether its files keep what is written to them, and give it back.
    ghost keeps: { Self → Bool };

    /// Makes a file that has no bytes yet.
    fn create(&mut self) -> Result<W, StoreFault>
        ensures keeps { keeps self.old ≡ true → keeps self.new ≡ true }
        ensures empty { keeps self.old ≡ true → IfOk result (λ file.
            ((W.seen file).is_keeping ≡ true) × ((W.seen file).taken ≡ [])) };

    /// Opens a file to be read from its start. It has been flushed, and is not written to again.
    fn read_back(&mut self, file: W) -> Result<S, StoreFault>
        ensures keeps { keeps self.old ≡ true → keeps self.new ≡ true }
        ensures whole { keeps self.old ≡ true → (W.seen file).is_keeping ≡ true →
            IsSettled (W.seen file) → IfOk result (λ back.
            ((S.seen back).is_honest ≡ true) × ((S.seen back).left ≡ (W.seen file).taken)) };
}
