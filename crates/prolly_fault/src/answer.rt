//! What the program prints.
ghost use Rattle.std.specs.Prelude.{ℕ, List, [], IfOk};
ghost use Rattle.prolly_fault.specs.Answers.{Shows, ShowsNothing, ShowsLine, ShowsDone};
ghost use Rattle.prolly_fault.specs.Answers.{ShowsFault, ShowsFileFault, ShowsFileLine, ShowsName};

use crate::fault::Fault;
use crate::line::{LINE_START, append_named_fault, append_named_line};
use crate::name_fault::NameFault;
use crate::status;
use prolly_text::append_name;
use std::alloc::{AllocError, Global};

/// What the program prints, and the status with which it ends.
#[derive(Drop)]
pub struct Answer {
    /// [`DONE`](status::DONE) or [`NOTHING`](status::NOTHING), or else the status of the fault.
    pub status: u8,
    /// For standard output; empty where the command is not done.
    pub out: Vec<u8>,
    /// For standard error.
    pub err: Vec<u8>,
}

impl Answer {
    /// The answer of a command that is done: one line.
    pub fn of_line(alloc: Global, text: &[u8]) -> Result<Answer, AllocError>
        ensures { IfOk result (λ answer. ShowsLine answer text.now) }
    {
        let mut out = Vec::new(alloc);
        out.extend_from_slice(text)?;
        out.extend_from_slice(b"\n")?;
        Ok(Answer {
            status: status::DONE,
            out,
            err: Vec::new(alloc),
        })
    }

    /// The answer of a command that is done: these lines.
    pub fn of_lines(alloc: Global, lines: Vec<u8>) -> Answer
        ensures { Shows result 0 lines.items [] }
    {
        Answer {
            status: status::DONE,
            out: lines,
            err: Vec::new(alloc),
        }
    }

    /// The answer of a command that is done, and has nothing to show.
    pub fn of_done(alloc: Global) -> Answer
        ensures { ShowsDone result }
    {
        Answer {
            status: status::DONE,
            out: Vec::new(alloc),
            err: Vec::new(alloc),
        }
    }

    /// The answer of a look-up that found nothing: no line, and a status of its own.
    pub fn of_nothing(alloc: Global) -> Answer
        ensures { ShowsNothing result }
    {
        Answer {
            status: status::NOTHING,
            out: Vec::new(alloc),
            err: Vec::new(alloc),
        }
    }

    /// The answer of a command that is not done: the fault's line on standard error.
    pub fn of_fault(alloc: Global, fault: Fault) -> Result<Answer, AllocError>
        ensures { IfOk result (λ answer. ShowsFault answer fault) }
    {
        let line = format!(in alloc; "{LINE_START}{fault}\n")?;
        Ok(Answer {
            status: fault.status(),
            out: Vec::new(alloc),
            err: line.into_bytes(),
        })
    }

    /// The answer of a command that is not done since a file that the words name is at fault: a
    /// line with its name, in which control characters, byte order marks and backslashes are
    /// escaped, so that it stays one line and names one file.
    pub fn of_name(alloc: Global, fault: NameFault, name: &str) -> Result<Answer, AllocError>
        ensures { IfOk result (λ answer. ShowsName answer fault name.now) }
    {
        let mut line = Vec::new(alloc);
        line.extend_from_slice(LINE_START.as_bytes())?;
        line.extend_from_slice(fault.text().as_bytes())?;
        append_name(&mut line, name)?;
        line.extend_from_slice(b"\n")?;
        Ok(Answer {
            status: status::FILES,
            out: Vec::new(alloc),
            err: line,
        })
    }

    /// The same answer, as it is told of one file of several: with the file's name behind its line,
    /// or before what is wrong. Where `quiet` is set, the line is left out.
    pub fn in_file(self, alloc: Global, name: &str, quiet: bool) -> Result<Answer, AllocError>
        ensures done { (text : List ℕ) → ShowsLine self text →
            IfOk result (λ answer. ShowsFileLine quiet answer text name.now) }
        ensures fault { (fault : Fault) → ShowsFault self fault →
            IfOk result (λ answer. ShowsFileFault answer fault name.now) }
    {
        let mut out = Vec::new(alloc);
        if !quiet {
            append_named_line(&mut out, &self.out, name)?;
        }
        let mut err = Vec::new(alloc);
        append_named_fault(&mut err, &self.err, name)?;
        Ok(Answer {
            status: self.status,
            out,
            err,
        })
    }
}
