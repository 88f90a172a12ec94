//! The tree that the words name.
ghost use Rattle.std.specs.Prelude.{◌≡◌, IfOk};
ghost use Rattle.std.specs.Option.{option_map};
ghost use Rattle.prolly.specs.Roots.{root_of};

use crate::known_root::KnownRoot;
use prolly_entry::{Ref, Version};
use prolly_files::{Chunks, Found, InputName, Refusal};
use prolly_io::FromRead;
use std::fs::File;

/// The tree that the words name: that of a chunk file, which is checked, or where they give a root, the
/// tree of that root, of whose file nothing else is believed.
#[derive(Drop)]
pub struct NamedTree {
    file: String,
    root: Option<KnownRoot>,
}

impl NamedTree {
    /// The tree of this file, and of this root where one is given, in chunks of the version.
    pub fn of(file: String, root: Option<Ref>, version: Version) -> NamedTree
        ensures { result.root ≡
            option_map (λ root. record { version = version; root = root }) root }
    {
        NamedTree {
            file,
            root: KnownRoot::given(root, version),
        }
    }

    /// The root that is believed.
    pub fn root(&self) -> Option<KnownRoot>
        ensures { result ≡ self.now.root }
    {
        self.root
    }

    /// Opens the file, where that is not the output.
    pub fn open(&self, rt: &HostRuntime, output: Found) -> Result<OpenTree, Refusal>
        ensures { IfOk result (λ tree. root_of tree ≡ self.now.root) }
    {
        self.open_after(rt, Found::Nothing, output)
    }

    /// The same of a command that has read another file before: a pipe gives its bytes once.
    pub fn open_after(
        &self,
        rt: &HostRuntime,
        earlier: Found,
        output: Found,
    ) -> Result<OpenTree, Refusal>
        ensures { IfOk result (λ tree. root_of tree ≡ self.now.root) }
    {
        let name = InputName::look(rt, &self.file)?;
        name.refuse_read_twice(rt, &[earlier])?;
        let input = name.open_beside(rt, output)?;
        match self.root {
            None => Ok(OpenTree::Whole(input.into_chunk_file(rt)?)),
            Some(root) => Ok(OpenTree::Rooted(input.into_chunks(rt)?, root)),
        }
    }
}

/// A tree whose file is open.
#[derive(Drop)]
pub enum OpenTree {
    /// The file is to be read whole, and checked.
    Whole(FromRead<File>),
    /// What is needed of the file is to be read, and only the root is believed.
    Rooted(Chunks, KnownRoot),
}
