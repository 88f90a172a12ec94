//! What a run of the program is answered: a `build` or an `apply` over files that are open, and words
//! that give no command.
#![tactic(auto)]

mod applied;
mod built;
mod held_back;
mod refusal;
mod runs;

pub use applied::{agreed_header, answer_apply};
pub use built::answer_build;
pub use held_back::HeldBack;
pub use refusal::answer_refusal;
pub use runs::{answer_apply_into, answer_build_into};
