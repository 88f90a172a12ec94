//! The command `root`.
use prolly_answer::answer_root;
use prolly_fault::Answer;
use prolly_files::{Input, Refusal};

/// `root FILE`. The file may be of any size.
pub fn answer(rt: &HostRuntime, file: &str) -> Result<Answer, Refusal> {
    let mut device = Input::open(rt, file)?.into_device();
    Ok(answer_root(rt.alloc(), &mut device)?)
}
