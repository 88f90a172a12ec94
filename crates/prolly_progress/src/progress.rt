//! How far a run has come, and the line that says it.
ghost use Rattle.std.specs.Prelude.{◌≡◌, Some};
ghost use Rattle.prolly_progress.specs.Lines.{rate, seconds_left};

use std::fmt;
use std::fmt::{Display, Formatter};

/// A million bytes, the unit in which bytes are shown.
const MEGABYTE: u64 = 1_000_000;

/// What is shown of a run under way.
#[derive(Clone, Copy)]
pub struct Progress {
    /// How many records were read.
    pub records: u64,
    /// How many bytes were read.
    pub read: u64,
    /// How many bytes there are to read, where that is known.
    pub total: Option<u64>,
    /// How many bytes were written.
    pub written: u64,
    /// How many milliseconds ago the run began.
    pub millis: u64,
}

impl Progress {
    /// How many megabytes a second were read, rounded down.
    fn rate(&self) -> u64
        ensures { result ≡ rate self.now }
    {
        self.read / self.millis.max(1) / 1_000
    }

    /// How many seconds are left at the same pace, rounded up. `None` where that is not known.
    fn seconds_left(&self) -> Option<u128>
        ensures { result ≡ seconds_left self.now }
    {
        let total = self.total?;
        if self.read == 0 {
            return None;
        }
        let missing = u128::from(total.saturating_sub(self.read)) * u128::from(self.millis);
        let pace = u128::from(self.read) * 1_000;
        let whole = missing / pace;
        Some(if missing % pace == 0 {
            whole
        } else {
            whole + 1
        })
    }
}

impl Display for Progress {
    ghost use Rattle.prolly_progress.specs.Lines.{progress_line};

    ghost output = { λ progress. Some (progress_line progress) };

    fn fmt<W: fmt::Write>(&self, f: &mut Formatter<W>) -> fmt::Result {
        let read = ReadText(*self);
        let written = self.written / MEGABYTE;
        let rate = self.rate();
        let rest = Known {
            before: ", ",
            number: self.seconds_left(),
            behind: " s left",
        };
        write!(f, "{read}, wrote {written} MB, {rate} MB/s{rest}")
    }
}

/// What was read, to be shown at the front of the line.
#[derive(Clone, Copy)]
struct ReadText(Progress);

impl Display for ReadText {
    ghost use Rattle.prolly_progress.specs.Lines.{read_text};

    ghost output = { λ shown. Some (read_text shown.0) };

    fn fmt<W: fmt::Write>(&self, f: &mut Formatter<W>) -> fmt::Result {
        let records = self.0.records;
        let read = self.0.read / MEGABYTE;
        let total = Known {
            before: " of ",
            number: self.0.total.map(|total| u128::from(total / MEGABYTE)),
            behind: "",
        };
        write!(f, "read {records} records, {read}{total} MB")
    }
}

/// A number between two texts, to be shown where the number is known.
#[derive(Clone, Copy)]
struct Known<'a> {
    before: &'a str,
    number: Option<u128>,
    behind: &'a str,
}

impl Display for Known<'_> {
    ghost use Rattle.prolly_progress.specs.Lines.{known_text};

    ghost output = { λ shown. Some (known_text shown.before.now shown.number shown.behind.now) };

    fn fmt<W: fmt::Write>(&self, f: &mut Formatter<W>) -> fmt::Result {
        match self.number {
            None => Ok(()),
            Some(number) => write!(f, "{}{number}{}", self.before, self.behind),
        }
    }
}
