//! What a stage gives back, and how it sends what was closed.
ghost use Rattle.std.specs.Prelude.{◌≡◌, ◌∷◌, [], ◌++◌, OnOk, OnErr};
ghost use Rattle.std.specs.Option.{option_to_list};
ghost use Rattle.prolly_link.specs.Progress.{HasEnded};
ghost use Rattle.prolly_link.specs.declared.message.End.TheVariants.{Fault};
ghost use Rattle.prolly_link.specs.declared.fault.RunFault.TheVariants.{Memory};

use prolly_chunk::ChunkEvent;
use prolly_link::{End, In, Out, RunFault, receive_rest};
use std::alloc::AllocError;
use std::sync::Wait;

/// The ends that a stage was given: the input has ended, and the output is closed.
pub struct Staged<I, O: Out<ChunkEvent>> {
    pub input: I,
    pub out: O::Closed,
}

/// Gives up for want of memory: closes the output, and then receives the input to its end, so that
/// its sender does not wait for room for good.
pub(crate) fn give_up<T: Drop, I: In<T>, O: Out<ChunkEvent>, R: Wait>(
    rt: &R,
    mut input: I,
    out: O,
) -> Staged<I, O>
    ensures input_link { I.link result.input ≡ I.link input }
    ensures follows { I.Follows input result.input }
    ensures ended { HasEnded (I.progress result.input) }
    ensures out_link { O.closed_link result.out ≡ O.link out }
    ensures sent { O.all_sent result.out ≡ O.sent out }
    ensures end { O.end_sent result.out ≡ Fault Memory }
{
    let out = out.close(rt, End::Fault(RunFault::Memory));
    receive_rest(rt, &mut input);
    Staged { input, out }
}

/// Sends an event. An `Err` has sent nothing.
///
/// Where the receiver is far behind, this takes the hash of the chunk, which the receiver would
/// take else.
pub fn send_event<O: Out<ChunkEvent>, R: Wait>(
    rt: &R,
    out: &mut O,
    event: ChunkEvent,
) -> Result<(), AllocError>
    ensures link { O.link out.new ≡ O.link out.old }
    ensures ok { OnOk result (O.sent out.new ≡ O.sent out.old ++ event ∷ []) }
    ensures err { OnErr result (O.sent out.new ≡ O.sent out.old) }
{
    let size = event.bytes().len();
    match out.send_sized(rt, prepared(event, out.is_ahead()), size) {
        Ok(()) => Ok(()),
        Err(_) => Err(AllocError),
    }
}

/// The event as it is sent: with its reference where the sender has the time to take it.
fn prepared(event: ChunkEvent, is_ahead: bool) -> ChunkEvent
    ensures { result ≡ event }
{
    if is_ahead {
        event.with_reference()
    } else {
        event
    }
}

/// Sends the event of a chunk, if one closed. An `Err` has sent nothing.
pub fn send_closed<O: Out<ChunkEvent>, R: Wait>(
    rt: &R,
    out: &mut O,
    closed: Option<ChunkEvent>,
) -> Result<(), AllocError>
    ensures link { O.link out.new ≡ O.link out.old }
    ensures ok { OnOk result (O.sent out.new ≡ O.sent out.old ++ option_to_list closed) }
    ensures err { OnErr result (O.sent out.new ≡ O.sent out.old) }
{
    match closed {
        None => Ok(()),
        Some(event) => send_event(rt, out, event),
    }
}
