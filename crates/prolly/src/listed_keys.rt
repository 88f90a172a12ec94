//! The keys of a file of keys.
use prolly_answer::read_keys;
use prolly_fault::Fault;
use prolly_files::{Found, Input, Refusal};
use prolly_text::Notation;

/// The keys of a file of keys, and what that file is.
#[derive(Drop)]
pub struct ListedKeys {
    pub keys: Vec<Vec<u8>>,
    pub file: Found,
}

impl ListedKeys {
    /// No keys, of no file.
    pub fn none(rt: &HostRuntime) -> ListedKeys {
        ListedKeys {
            keys: Vec::new(rt.alloc()),
            file: Found::Nothing,
        }
    }

    /// The keys that the lines of the file of this name stand for, where it is not the output.
    pub fn read(
        rt: &HostRuntime,
        name: &str,
        notation: Notation,
        output: Found,
    ) -> Result<ListedKeys, Refusal> {
        let input = Input::open_beside(rt, name, output)?;
        let file = input.found();
        let mut source = input.into_whole(rt, Fault::InputTooLong)?;
        match read_keys(rt.alloc(), notation, &mut source) {
            Ok(keys) => Ok(ListedKeys { keys, file }),
            Err(fault) => Err(Refusal::of_fault(rt, fault)),
        }
    }
}
