//! A run in order: records in memory whose keys rise.
ghost use Rattle.std.specs.Prelude.{◌≡◌};

use crate::place::Place;
use prolly_io::{Sink, WriteFault, write_all};
use std::marker::Model;

/// Records in memory, in the order of their keys. Contracts see the list of them.
#[derive(Drop)]
pub struct SortedRun {
    /// The spellings of all records that came, one after another.
    pub(crate) bytes: Vec<u8>,
    /// Where the records lie, in the order of their keys.
    pub(crate) places: Vec<Place>,
}

impl Model for SortedRun {
    ghost use Rattle.std.specs.Prelude.{All, List};
    ghost use Rattle.prolly_entry.specs.Record.{Record as RecordValue};
    ghost use Rattle.prolly_sort.specs.Place.{StandsIn, records_in};

    ghost Value = { List RecordValue };

    ghost view = { λ r. records_in r.bytes.items r.places.items };

    ghost invariant = { λ r. All (StandsIn r.bytes.items) r.places.items };
}

impl SortedRun {
    ghost use Rattle.std.specs.Prelude.{length, option_map, slice_get, OnOk};
    ghost use Rattle.prolly_io.specs.Sink.{IsSettled};
    ghost use Rattle.prolly_io.specs.Writes.{Writes};
    ghost use Rattle.prolly_sort.specs.Overlaid.{written};
    ghost use Rattle.prolly_sort.specs.Shown.{shown_record};
    ghost use Rattle.prolly_sort.specs.Shelf.{first_position};
    ghost use Rattle.prolly_entry.specs.Position.{last_position};
    ghost use Rattle.std.specs.Option.{option_copied};

    /// How many records there are.
    pub fn len(&self) -> usize
        ensures { result ≡ length self.now }
    {
        self.places.len()
    }

    /// The record of this number, from 0: its key, and the value that it puts, or none where it
    /// removes its key. Takes no memory.
    pub fn get(&self, number: usize) -> Option<(&[u8], Option<&[u8]>)>
        ensures { option_map shown_record result ≡ slice_get self.now number }
    {
        match self.places.get(number) {
            None => None,
            Some(place) => Some((place.key(&self.bytes), place.value(&self.bytes))),
        }
    }

    /// The first key; none where there are no records. Takes no memory.
    pub(crate) fn first_key(&self) -> Option<&[u8]>
        ensures { option_copied result ≡ first_position self.now }
    {
        match self.places.first() {
            None => None,
            Some(place) => Some(place.key(&self.bytes)),
        }
    }

    /// The last key; none where there are no records. Takes no memory.
    pub(crate) fn last_key(&self) -> Option<&[u8]>
        ensures { option_copied result ≡ last_position self.now }
    {
        match self.places.last() {
            None => None,
            Some(place) => Some(place.key(&self.bytes)),
        }
    }

    /// Writes the record file of the records to a sink, and flushes the sink.
    ///
    /// Takes no memory, and makes one call of the sink for each record, or more where the sink
    /// takes only a part. After a `WriteFault` the sink has a part of the record file.
    pub fn write_records<W: Sink>(&self, sink: &mut W) -> Result<(), WriteFault>
        ensures writes { Writes (written self.now) (W.seen sink.old) (W.seen sink.new) result }
        ensures settled { OnOk result (IsSettled (W.seen sink.new)) }
    {
        for place in &self.places {
            write_all(sink, place.spelling(&self.bytes))?;
        }
        sink.flush()?;
        Ok(())
    }
}
