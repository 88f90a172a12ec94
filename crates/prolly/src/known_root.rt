//! A root that is believed.
ghost use Rattle.std.specs.Prelude.{◌≡◌};
ghost use Rattle.std.specs.Option.{option_map};

use prolly_entry::{Ref, Version};

/// A root that is believed, and the version of its tree's chunks.
#[derive(Clone, Copy)]
pub struct KnownRoot {
    pub version: Version,
    pub root: Ref,
}

impl KnownRoot {
    /// The root that the words give, where they give one. Without one the version is ignored.
    pub fn given(root: Option<Ref>, version: Version) -> Option<KnownRoot>
        ensures { result ≡ option_map (λ root. record { version = version; root = root }) root }
    {
        root.map(|root| KnownRoot { version, root })
    }
}
