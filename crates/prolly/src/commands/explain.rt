//! The command `explain`, of a record file and of lines.
ghost use Rattle.prolly.specs.Kinds.{IsExplain};

use prolly_answer::{answer_explain, answer_explain_lines};
use prolly_fault::Answer;
use prolly_files::{Input, Refusal, refuse_printed_input, stdin_source, tell_of_terminal};
use prolly_line::Command;
use prolly_text::{LineForm, Notation};

/// The answer of an `explain`.
pub fn answer(rt: &HostRuntime, command: Command) -> Result<Answer, Refusal>
    requires { IsExplain command }
{
    match command {
        Command::Explain { file, notation } => explain(rt, &file, notation),
        Command::ExplainLines {
            notation,
            removals,
            all,
        } => explain_lines(rt, LineForm { notation, removals }, all),
        _ => unreachable!(),
    }
}

/// `explain [--text] FILE`
fn explain(rt: &HostRuntime, file: &str, notation: Notation) -> Result<Answer, Refusal> {
    let mut source = Input::open(rt, file)?.into_source();
    Ok(answer_explain(rt.alloc(), &mut source, notation)?)
}

/// `explain --lines [--text] [--removals] [--all]`. The lines are standard input, of any size.
fn explain_lines(rt: &HostRuntime, form: LineForm, all: bool) -> Result<Answer, Refusal> {
    refuse_printed_input(rt)?;
    tell_of_terminal(rt);
    Ok(answer_explain_lines(rt.alloc(), &mut stdin_source(rt), form, all)?)
}
