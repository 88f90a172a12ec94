//! What is said of a fault.

use std::fmt;
use std::fmt::{Display, Formatter};

/// What is said of a fault: a text, in which one number may stand, or two.
///
/// A fault with many cases chooses one of these, and shows it. So the choice is proved apart from
/// the writing, which is proved once for all faults.
#[derive(Clone, Copy)]
pub enum FaultText {
    /// The text alone.
    Plain(&'static str),
    /// The text, and then the number.
    Ending(&'static str, u64),
    /// The number between two texts.
    Holding(&'static str, u64, &'static str),
    /// Two numbers between three texts.
    HoldingTwo(&'static str, u64, &'static str, u64, &'static str),
}

impl Display for FaultText {
    ghost use Rattle.std.specs.Prelude.{Some};
    ghost use Rattle.prolly_entry.specs.FaultTexts.{shown_text};

    ghost output = { λ text. Some (shown_text text) };

    fn fmt<W: fmt::Write>(&self, f: &mut Formatter<W>) -> fmt::Result {
        match *self {
            FaultText::Plain(text) => f.write_str(text),
            FaultText::Ending(text, number) => write!(f, "{text}{number}"),
            FaultText::Holding(before, number, behind) => write!(f, "{before}{number}{behind}"),
            FaultText::HoldingTwo(before, first, between, second, behind) => {
                write!(f, "{before}{first}{between}{second}{behind}")
            }
        }
    }
}
