//! Why the words give no command.
ghost use Rattle.std.specs.Prelude.{◌≡◌};
ghost use Rattle.prolly_line.specs.declared.parse_fault.ParseFault.TheVariants.{Memory};

use std::alloc::AllocError;

/// Why the words give no command.
#[derive(Drop)]
pub enum ParseFault {
    /// Memory ran out.
    Memory,
    /// The words are not what the command line takes, which the text says as clap does.
    Usage(String),
    /// The words ask for help, or for the version, which is the text.
    Help(String),
    /// The word for the root is not the text of a reference: 32 figures and letters from a to v. It is
    /// told only where the words fit together.
    BadRoot,
    /// Of the roots of two trees one is given alone.
    LoneRoot,
    /// A word for a key is not hexadecimal, or writes more than 1,024 bytes. It is told only where
    /// the words fit together, and the word for the root, if there is one, is good.
    BadKey,
    /// With `--text`, a word for a key is no text of bytes, or of more than 1,024. It is told only
    /// where the words fit together, and the word for the root, if there is one, is good.
    BadTextKey,
}

impl From<AllocError> for ParseFault {
    ghost from_gives = { λ _ fault. fault ≡ Memory };

    fn from(_error: AllocError) -> ParseFault {
        ParseFault::Memory
    }
}
