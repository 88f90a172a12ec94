//! The command `stat`.
ghost use Rattle.prolly.specs.Kinds.{IsStat};

use crate::host::Host;
use prolly_answer::{StatForm, answer_stat};
use prolly_fault::Answer;
use prolly_files::{CHUNK_FILE_LETTERS, Input, Refusal};
use prolly_line::Command;
use std::thread::Threads;

/// `stat [--json] [--text] FILE`. Of the two kinds of files a chunk file is read whole.
pub fn answer<T: Threads + Sync>(host: &Host<'_, T>, command: Command) -> Result<Answer, Refusal>
    requires { IsStat command }
{
    let Command::Stat {
        file,
        json,
        notation,
    } = command
    else {
        unreachable!()
    };
    let rt = host.rt;
    let input = Input::open(rt, &file)?;
    let source = if input.begins_with(CHUNK_FILE_LETTERS) {
        input.into_chunk_file(rt)?
    } else {
        input.into_source()
    };
    let form = if json {
        StatForm::Json
    } else {
        StatForm::Lines(notation)
    };
    Ok(answer_stat(&host.hasher(), rt.alloc(), source, form).answer?)
}
