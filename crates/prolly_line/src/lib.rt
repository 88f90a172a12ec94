//! The command line of the program `prolly`: which words it takes, and which command they give.
//!
//! `parse` is all that a program calls. Its clauses speak of `program_line`, the command line as
//! a definition, and of what clap's proved model makes of the words under it.
#![tactic(auto)]

mod arguments;
mod assembly;
mod command;
mod commands;
mod help;
mod line;
mod misfit;
mod parse_fault;
mod root_pair;
mod sought;
mod values;
mod write_mode;

pub use arguments::{DEFAULT_BATCH, DEFAULT_CAPACITY, DEFAULT_MAX_RECORDS, DEFAULT_STAGES};
pub use command::{Command, parse};
pub use parse_fault::ParseFault;
pub use prolly_text::Notation;
pub use root_pair::RootPair;
pub use sought::Sought;
pub use write_mode::WriteMode;
