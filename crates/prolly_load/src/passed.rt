//! Items that passed an end, as contracts see them.
ghost use Rattle.std.specs.Prelude.{◌≡◌, ◌∷◌, ◌++◌, []};

use std::marker::Model;
use std::mem;
use std::snapshot::Snapshot;

/// The items that passed an end, oldest first. Contracts alone see them: it has no bytes.
#[derive(Drop)]
pub(crate) struct Passed<T> {
    items: Snapshot<Chain<T>>,
}

/// One item behind others, or none.
#[derive(Drop)]
enum Chain<T> {
    Nothing,
    More(Snapshot<Chain<T>>, Snapshot<T>),
}

impl<T> Model for Passed<T> {
    ghost use Rattle.std.specs.Prelude.{List};

    ghost Value = { List T };

    ghost use Rattle.prolly_load.specs.Passed.{chain_items};

    ghost view = { λ p. chain_items p.items.value };
}

impl<T> Passed<T> {
    /// No items yet.
    pub(crate) fn new() -> Passed<T>
        ensures { result ≡ [] }
    {
        Passed {
            items: Snapshot::of(&Chain::Nothing),
        }
    }

    /// One item more has passed.
    pub(crate) fn add(&mut self, item: &T)
        ensures { self.new ≡ self.old ++ item.now ∷ [] }
    {
        let before = mem::replace(&mut self.items, Snapshot::of(&Chain::Nothing));
        self.items = Snapshot::of(&Chain::More(before, Snapshot::of(item)));
    }
}
