//! The program `prolly`: it reads its words, opens and makes the files that they name, and prints
//! the answer. The answers are those of `prolly_answer` and `prolly_runs`, and the line and status of
//! each fault those of `prolly_fault`. What keeps files from being lost stands in `prolly_files`.
#![tactic(auto)]

mod commands;
mod host;
mod known_root;
mod listed_keys;
mod named_tree;
mod words;

use crate::commands::answer_of;
use crate::host::Host;
use crate::words::read_words;
use prolly_fault::{Answer, Fault, LINE_START};
use prolly_files::{ClosedStreams, print};
use prolly_line::parse;
use prolly_runs::answer_refusal;
use std::alloc::AllocError;
use std::process::ExitCode;
use std::sync::Wait;
use std::thread::Threads;
use std::time::Clock;

fn main(rt: HostRuntime) -> ExitCode {
    let _closed = ClosedStreams::hold(&rt);
    let host = Host {
        rt: &rt,
        threads: &rt,
    };
    ExitCode::from(match answer(&host) {
        Ok(answer) => tell(&rt, &answer),
        Err(AllocError) => report(&rt, Fault::Memory),
    })
}

/// Does what the words say.
fn answer<T: Wait + Threads + Clock + Sync>(host: &Host<'_, T>) -> Result<Answer, AllocError> {
    let rt = host.rt;
    let words = match read_words(rt) {
        Ok(words) => words,
        Err(fault) => return Answer::of_fault(rt.alloc(), fault),
    };
    match parse(rt.alloc(), &words) {
        Ok(command) => answer_of(host, command),
        Err(refusal) => answer_refusal(rt.alloc(), refusal),
    }
}

/// Prints the answer, and gives the status to end with.
fn tell(rt: &HostRuntime, answer: &Answer) -> u8 {
    match print(rt, answer) {
        Ok(()) => answer.status,
        Err(_) => report(rt, Fault::Write),
    }
}

/// Prints the line of a fault, which takes no memory, and gives its status.
fn report(rt: &HostRuntime, fault: Fault) -> u8 {
    let _ = eprintln!(rt; "{LINE_START}{fault}");
    fault.status()
}
