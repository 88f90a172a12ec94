//! A source of which the first bytes were taken off.
ghost use Rattle.std.specs.Prelude.{◌≡◌, ◌++◌, ◌≤◌, true, vec_len};

use crate::device::copy::copy_some;
use crate::device::source::{Source, SourceFault};

/// A source of which some bytes were taken off already: they come first, and then what it has left.
/// While some of them are left, a read gives no others and does not ask the rest.
#[derive(Drop)]
pub struct Rejoined<S> {
    front: Vec<u8>,
    /// How many bytes of the front were given.
    given: usize,
    ghost within: { given ≤ vec_len front },
    rest: S,
}

impl<S: Source> Rejoined<S> {
    /// A source of these bytes, and behind them of what the rest has left. It reads nothing yet.
    pub fn new(front: Vec<u8>, rest: S) -> Rejoined<S>
        ensures left { (⟦<Rejoined<S> as Source>⟧.seen result).left ≡
            front.items ++ (S.seen rest).left }
        ensures honest { (⟦<Rejoined<S> as Source>⟧.seen result).is_honest ≡
            (S.seen rest).is_honest }
        ensures steady { (⟦<Rejoined<S> as Source>⟧.seen result).is_steady ≡
            (S.seen rest).is_steady }
        ensures failures { (⟦<Rejoined<S> as Source>⟧.seen result).failures ≡
            (S.seen rest).failures }
    {
        Rejoined {
            front,
            given: 0,
            rest,
        }
    }

    /// Gives the rest back, as the reads left it. What was not given of the front is gone.
    pub fn into_rest(self) -> S
        ensures honest { (⟦<Rejoined<S> as Source>⟧.seen self).is_honest ≡ true →
            (S.seen result).is_honest ≡ true }
        ensures steady { (S.seen result).is_steady ≡
            (⟦<Rejoined<S> as Source>⟧.seen self).is_steady }
        ensures failures { (S.seen result).failures ≡
            (⟦<Rejoined<S> as Source>⟧.seen self).failures }
    {
        self.rest
    }
}

impl<S: Source> Source for Rejoined<S> {
    ghost use Rattle.std.specs.Prelude.{drop};
    ghost use Rattle.prolly_io.specs.BytesLaws.{joined_are_bytes};
    ghost use Rattle.prolly_io.specs.Rejoined.{rejoined_view};

    ghost seen = { rejoined_view S.seen };

    ghost left_are_bytes = { λ s told. joined_are_bytes (drop s.given s.front.items)
        (S.seen s.rest).left (S.seen s.rest).is_honest told (S.left_are_bytes s.rest) };

    fn read(&mut self, buf: &mut [u8]) -> Result<usize, SourceFault> {
        let front = &self.front[self.given..];
        if front.is_empty() {
            return self.rest.read(buf);
        }
        let count = copy_some(front, front.len(), buf);
        self.given += count;
        Ok(count)
    }
}
