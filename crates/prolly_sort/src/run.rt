//! A run: records in memory, in the order in which they came.
ghost use Rattle.std.specs.Prelude.{◌≡◌, ◌∷◌, ◌++◌, ◌+◌, ◌<◌, ◌≤◌, ◌^◌, ◌↔◌, [], true, length};
ghost use Rattle.prolly_entry.specs.Keys.{Rising};
ghost use Rattle.prolly_entry.specs.Record.{IsRecord, Record as RecordValue, keys_of};
ghost use Rattle.prolly_entry.specs.Spelling.{record_spelling};
ghost use Rattle.prolly_sort.specs.Place.{place_of, records_in};

use crate::fault::{DoubledKey, PushFault};
use crate::order::{first_doubled, keep_last, sort_places};
use crate::place::Place;
use crate::sorted_run::SortedRun;
use prolly_entry::{LENGTHS_SIZE, Record, append_record, key_order};
use std::alloc::Global;
use std::marker::Model;

/// How much of a budget a record takes beside its spelling: the 24 bytes of its place.
const PLACE_COST: usize = 24;

/// Records in memory, in the order in which they came, up to a budget.
///
/// Their spellings stand in one block of memory and their places in another, so a record takes no
/// memory of its own. A record takes its spelling and 24 bytes of the budget. A block that is too
/// small is copied into one of twice its size, so for a moment a run takes up to three times its
/// budget.
#[derive(Drop)]
pub struct Run {
    /// The spellings of the records, one after another.
    bytes: Vec<u8>,
    places: Vec<Place>,
    /// Whether the keys rise.
    is_rising: bool,
    budget: usize,
}

impl Model for Run {
    ghost use Rattle.prolly_sort.specs.Run.{Held, IsHeld, held_in};

    ghost Value = { Held };

    ghost view = { λ r. held_in r.bytes.items r.places.items r.budget };

    ghost invariant = { λ r. IsHeld r.bytes.items r.places.items r.is_rising r.budget };
}

impl Run {
    ghost use Rattle.std.specs.Prelude.{ℕ, Err, IfErr, IfOk, OnErr, OnOk};
    ghost use Rattle.prolly_sort.specs.Overlaid.{overlaid};
    ghost use Rattle.prolly_sort.specs.Run.{AreDoubled, cost_of, new_run, with_more};

    /// A run of no records, with this budget in bytes. Takes no memory yet.
    pub fn new(alloc: Global, budget: u32) -> Run
        ensures { result ≡ new_run budget }
    {
        Run {
            bytes: Vec::new(alloc),
            places: Vec::new(alloc),
            is_rising: true,
            budget: budget as usize,
        }
    }

    /// How many records came.
    pub fn len(&self) -> usize
        ensures { result ≡ length self.now.records }
    {
        self.places.len()
    }

    /// Whether each key is greater than the one before it, so that there is nothing to put in order.
    pub fn is_rising(&self) -> bool
        ensures { (result ≡ true) ↔ Rising (keys_of self.now.records) }
    {
        self.is_rising
    }

    /// Takes a copy of a record behind those that came. An `Err` leaves the run as it was. It is
    /// full exactly where the record takes more of the budget than is left.
    ///
    /// Compares its key with the one before it, as long as keys rise.
    pub fn push(&mut self, record: &Record) -> Result<(), PushFault>
        ensures ok { OnOk result (self.new ≡ with_more self.old «record».now) }
        ensures err { OnErr result (self.new ≡ self.old) }
        ensures lawful { OnOk result (IsRecord «record».now) }
        ensures full { (result ≡ Err PushFault.Full) ↔
            (self.old.budget < cost_of (with_more self.old «record».now).records) }
    {
        let used = self.bytes.len() + PLACE_COST * self.places.len();
        if self.budget - used < cost(record) {
            return Err(PushFault::Full);
        }
        let is_rising = rises(self.is_rising, &self.bytes, &self.places, record.key());
        let start = self.bytes.len();
        append_record(&mut self.bytes, record)?;
        let place = place_of(record, self.places.len(), start, self.bytes.len());
        if let Err(_) = self.places.push(place) {
            self.bytes.truncate(start);
            return Err(PushFault::Memory);
        }
        self.is_rising = is_rising;
        Ok(())
    }

    /// Puts the records in the order of their keys, each key once: of records with one key the last
    /// one counts.
    ///
    /// It takes no memory, and no time where the keys rise ([`Run::is_rising`]). Else it takes
    /// O(n log n) comparisons, of eight bytes where these tell keys apart and else of keys.
    pub fn sort(self) -> SortedRun
        ensures records { result ≡ overlaid self.records }
        ensures rising { Rising (keys_of result) }
    {
        let Run {
            bytes,
            mut places,
            is_rising,
            budget: _,
        } = self;
        if is_rising {
            return SortedRun { bytes, places };
        }
        sort_places(&bytes, &mut places);
        keep_last(&bytes, &mut places);
        SortedRun { bytes, places }
    }

    /// Puts the records in the order of their keys, where no key came twice. Else it answers two
    /// records that have one key. Which of several such keys it is, is not promised.
    ///
    /// It takes the time that [`Run::sort`] takes, and no memory.
    pub fn sort_unique(self) -> Result<SortedRun, DoubledKey>
        ensures records { IfOk result (λ sorted. sorted ≡ overlaid self.records) }
        ensures rising { IfOk result (λ sorted. Rising (keys_of sorted)) }
        ensures all { IfOk result (λ sorted. length sorted ≡ length self.records) }
        ensures apart { IfOk result (λ _. (first second : ℕ) →
            AreDoubled self.records first second → ⊥) }
        ensures doubled { IfErr result (λ two. AreDoubled self.records two.first two.second) }
    {
        let Run {
            bytes,
            mut places,
            is_rising,
            budget: _,
        } = self;
        if is_rising {
            return Ok(SortedRun { bytes, places });
        }
        sort_places(&bytes, &mut places);
        match first_doubled(&bytes, &places) {
            None => Ok(SortedRun { bytes, places }),
            Some((one, next)) => Err(DoubledKey {
                first: u64::from(one.number),
                second: u64::from(next.number),
            }),
        }
    }
}

/// How much of a budget a record takes.
fn cost(record: &Record) -> usize
    ensures cost { result ≡ 24 + length (record_spelling «record».now) }
    ensures few { result ≤ 66590 }
    ensures lawful { IsRecord «record».now }
{
    let key = record.key();
    match record.value() {
        Some(value) => PLACE_COST + LENGTHS_SIZE + key.len() + value.len(),
        None => PLACE_COST + LENGTHS_SIZE + key.len(),
    }
}

/// Whether keys that rose so far rise with this one behind them.
fn rises(is_rising: bool, bytes: &[u8], places: &[Place], key: &[u8]) -> bool
    requires { (is_rising ≡ true) ↔ Rising (keys_of (records_in bytes.now places.now)) }
    ensures { (r : RecordValue) → r.key ≡ key.now →
        ((result ≡ true) ↔ Rising (keys_of (records_in bytes.now places.now ++ r ∷ []))) }
{
    if !is_rising {
        return false;
    }
    match places.last() {
        None => true,
        Some(last) => key_order(last.key(bytes), key).is_lt(),
    }
}

/// The place of a record of this number, whose spelling lies from `start` up to `end`. It is not
/// ranked yet.
fn place_of(record: &Record, number: usize, start: usize, end: usize) -> Place
    requires number { number < 2 ^ 32 }
    requires order { start ≤ end }
    requires end { end < 2 ^ 32 }
    ensures { result ≡ place_of number start end «record».now }
{
    let key = record.key();
    Place {
        prefix: 0,
        number: number as u32,
        start: start as u32,
        end: end as u32,
        key_len: key.len() as u16,
        is_put: record.value().is_some(),
    }
}
