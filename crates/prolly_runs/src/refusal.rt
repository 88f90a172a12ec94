//! The answer to words that give no command.
ghost use Rattle.std.specs.Prelude.{IfOk};
ghost use Rattle.prolly_runs.specs.Refusals.{ShowsRefusal};

use prolly_fault::{Answer, Fault, status};
use prolly_line::ParseFault;
use std::alloc::{AllocError, Global};

/// The answer to words that give no command: help as it was asked for, or what is wrong with them.
/// An `Err` is want of memory for the line of a fault.
pub fn answer_refusal(alloc: Global, refusal: ParseFault) -> Result<Answer, AllocError>
    ensures { IfOk result (λ answer. ShowsRefusal answer refusal) }
{
    match refusal {
        ParseFault::Memory => Answer::of_fault(alloc, Fault::Memory),
        ParseFault::BadKey => Answer::of_fault(alloc, Fault::BadKey),
        ParseFault::BadTextKey => Answer::of_fault(alloc, Fault::BadTextKey),
        ParseFault::BadRoot => Answer::of_fault(alloc, Fault::BadRoot),
        ParseFault::LoneRoot => Answer::of_fault(alloc, Fault::LoneRoot),
        ParseFault::Usage(text) => Ok(Answer {
            status: status::WORDS,
            out: Vec::new(alloc),
            err: text.into_bytes(),
        }),
        ParseFault::Help(text) => Ok(Answer {
            status: status::DONE,
            out: text.into_bytes(),
            err: Vec::new(alloc),
        }),
    }
}
