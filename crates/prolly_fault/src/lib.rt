//! The faults of commands, each with its line and its status, and the answer that the program prints.
#![tactic(auto)]

mod answer;
mod fault;
mod line;
mod name_fault;
mod output_fault;
mod root_output_fault;
mod set_fault;
pub mod status;

pub use answer::Answer;
pub use fault::{Fault, INPUT_LIMIT};
pub use line::{LINE_START, append_number};
pub use name_fault::NameFault;
pub use output_fault::OutputFault;
pub use root_output_fault::RootOutputFault;
