//! The command `root`: the root that a chunk file names.
ghost use Rattle.std.specs.Prelude.{◌≡◌, true, IfOk};
ghost use Rattle.prolly_look_up.specs.Content.{Content};
ghost use Rattle.prolly_root.specs.Walk.{HoldsFile};
ghost use Rattle.prolly_answer.specs.NamedRoots.{IsNamedRoot, ShowsRootOf};
ghost use Rattle.prolly_answer.specs.NamedRoots.{TellsNamedRead, check_fault};

use prolly_check::CheckFault;
use prolly_fault::{Answer, Fault};
use prolly_io::Device;
use prolly_root::{NamedRootFault, named_root};
use std::alloc::{AllocError, Global};

/// What `root` answers: the text of the root that the end record of a chunk file names, or the line
/// of the fault of the header or the end, which is that of `check`. Nothing between the two is read,
/// and nothing is checked: see [`named_root`]. An `Err` is want of memory for the answer's own text.
pub fn answer_root<D: Device>(alloc: Global, device: &mut D) -> Result<Answer, AllocError>
    ensures shown { (D.seen device.old).is_honest ≡ true →
        IfOk result (IsNamedRoot (D.seen device.old).bytes) }
    ensures read { IfOk result (TellsNamedRead (D.seen device.old).failures
        (D.seen device.new).failures) }

    // Of a lawful file it is the root.
    ensures lawful { (content : Content) → HoldsFile (D.seen device.old) content →
        IfOk result (ShowsRootOf content) }
{
    match named_root(device) {
        Ok(root) => Answer::of_line(alloc, &root.to_text()),
        Err(fault) => Answer::of_fault(alloc, Fault::Check(checked_as(fault))),
    }
}

/// The fault of a check that is told where a file names no root.
fn checked_as(fault: NamedRootFault) -> CheckFault
    ensures { result ≡ check_fault fault }
{
    match fault {
        NamedRootFault::Read => CheckFault::Read,
        NamedRootFault::BadHeader => CheckFault::BadHeader,
        NamedRootFault::Truncated => CheckFault::Truncated,
        NamedRootFault::BadEnd => CheckFault::BadEnd,
    }
}
