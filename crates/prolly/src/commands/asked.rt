//! What a proof is asked to show.
use crate::listed_keys::ListedKeys;
use prolly_fault::Fault;
use prolly_files::{Found, Refusal};
use prolly_line::Sought;
use prolly_range::{KeySet, SortedKeys};
use prolly_text::Notation;

/// What a proof is asked to show.
#[derive(Clone, Copy)]
pub enum Asked<'a> {
    /// What there is at a key.
    Key(&'a [u8]),
    /// What there is at all keys of a set.
    Set(KeySet<'a>),
}

impl<'a> Asked<'a> {
    /// What the words seek, where these keys were read from a file of keys.
    pub fn of(
        rt: &HostRuntime,
        sought: &'a Sought,
        listed: &'a ListedKeys,
    ) -> Result<Asked<'a>, Refusal> {
        match sought {
            Sought::Key(key) => Ok(Asked::Key(key)),
            Sought::Range { from, to } => Ok(Asked::Set(range_between(from, to))),
            Sought::Keys(_) => match SortedKeys::new(&listed.keys) {
                Ok(sorted) => Ok(Asked::Set(KeySet::Keys(sorted))),
                Err(fault) => Err(Refusal::of_fault(rt, Fault::from(fault))),
            },
        }
    }
}

/// The keys from the one on, before the other one.
fn range_between<'a>(from: &'a Vec<u8>, to: &'a Option<Vec<u8>>) -> KeySet<'a> {
    KeySet::Range {
        from,
        to: to.as_deref(),
    }
}

/// The keys of the file that the words name in their place, where that is not the output; none where
/// they name no file.
pub fn keys_sought(
    rt: &HostRuntime,
    sought: &Sought,
    notation: Notation,
    output: Found,
) -> Result<ListedKeys, Refusal> {
    match sought {
        Sought::Keys(name) => ListedKeys::read(rt, name, notation, output),
        _ => Ok(ListedKeys::none(rt)),
    }
}
