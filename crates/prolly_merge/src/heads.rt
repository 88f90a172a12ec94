//! The head of each input, and how an input is opened, peeked at and ended.
ghost use Rattle.std.specs.Prelude.{◌≡◌, None, length, vec_len, IfSome};
ghost use Rattle.prolly_merge.specs.Head.{in_hand, IsHeld};
ghost use Rattle.prolly_merge.specs.Peeked.{Advances, Opens, Finishes, peeked_of, AllHeld};
ghost use Rattle.prolly_merge.specs.Each.{Each};
ghost use Rattle.prolly_merge.specs.Inputs.{Ends};

use prolly_entry::Record;
use prolly_link::{End, In, Next, RunFault, receive_rest};
use std::alloc::Global;
use std::mem;
use std::sync::Wait;

/// What an input gave last: its next record, or its end.
#[derive(Drop)]
pub enum Head {
    Ready(Record),
    Ended(End),
}

impl Head {
    ghost use Rattle.prolly_merge.specs.Head.{record_in};

    /// The record; none of an end.
    pub(crate) fn into_record(self) -> Option<Record>
        ensures { result ≡ record_in self }
    {
        match self {
            Head::Ready(record) => Some(record),
            Head::Ended(_) => None,
        }
    }
}

/// Receives the next head. An input that is lost counts as one that ended with a fault.
pub(crate) fn receive<I: In<Record>, R: Wait>(rt: &R, input: &mut I) -> Head
    ensures link { I.link input.new ≡ I.link input.old }
    ensures follows { I.Follows input.old input.new }
    ensures received { I.received input.old input.new ≡ in_hand result }
    ensures held { IsHeld result (I.progress input.new) }
{
    match input.recv(rt) {
        Next::Item(record) => Head::Ready(record),
        Next::End(end) => Head::Ended(end),
        Next::Lost => Head::Ended(End::Fault(RunFault::Lost)),
    }
}

/// An input, and what it gave last.
pub struct Peeked<I> {
    pub input: I,
    pub head: Head,
}

impl<I: In<Record>> Peeked<I> {
    /// The input with its first head.
    pub fn new<R: Wait>(rt: &R, mut input: I) -> Peeked<I>
        ensures { Opens I.link I.progress I.Follows I.received input result }
    {
        let head = receive(rt, &mut input);
        Peeked { input, head }
    }

    /// Gives the head, and receives the next one. An end is given again.
    pub fn next<R: Wait>(&mut self, rt: &R) -> Head
        ensures given { result ≡ self.old.head }
        ensures advances { Advances I.link I.progress I.Follows self.old self.new }
        ensures received { I.received self.old.input self.new.input ≡ in_hand self.new.head }
    {
        let next = receive(rt, &mut self.input);
        mem::replace(&mut self.head, next)
    }

    /// The input, received to its end.
    pub fn finish<R: Wait>(self, rt: &R) -> I
        requires { IsHeld self.head (I.progress self.input) }
        ensures { Finishes I.link I.progress I.Follows I.received self result }
    {
        let Peeked { mut input, head } = self;
        finish(rt, &mut input, &head);
        input
    }
}

/// A merger sends a record, or stops with an end.
#[derive(Drop)]
pub(crate) enum MergeStep {
    Send(Record),
    Stop(End),
}

/// Receives the first head of each input. The memory for all of them is taken before, and where it
/// is refused no input is received from.
pub(crate) fn receive_heads<I: In<Record>, R: Wait>(
    rt: &R,
    alloc: Global,
    inputs: &mut [I],
) -> Option<Vec<Head>>
    ensures none { result ≡ None → inputs.new ≡ inputs.old }
    ensures len { IfSome result (λ heads. vec_len heads ≡ length inputs.new) }
    ensures opened { IfSome result (λ heads.
        Each (Opens I.link I.progress I.Follows I.received) inputs.old
        (peeked_of inputs.new heads.items)) }
{
    let Ok(mut heads) = Vec::with_capacity(alloc, inputs.len()) else {
        return None;
    };
    for input in inputs.iter_mut() {
        let head = receive(rt, input);
        if let Err(_) = heads.push(head) {
            unreachable!()
        }
    }
    Some(heads)
}

/// Receives an input to its end, unless its head is one.
pub(crate) fn finish<I: In<Record>, R: Wait>(rt: &R, input: &mut I, head: &Head)
    requires { IsHeld head.now (I.progress input.old) }
    ensures { Finishes I.link I.progress I.Follows I.received
        (record { input = input.old; head = head.now }) input.new }
{
    if let Head::Ready(_) = head {
        receive_rest(rt, input);
    }
}

/// Receives each input to its end.
pub(crate) fn finish_all<I: In<Record>, R: Wait>(rt: &R, inputs: &mut [I], heads: &[Head])
    requires len { length heads.now ≡ length inputs.old }
    requires held { AllHeld I.progress (peeked_of inputs.old heads.now) }
    ensures { Each (Finishes I.link I.progress I.Follows I.received)
        (peeked_of inputs.old heads.now) inputs.new }
{
    for (i, input) in inputs.iter_mut().enumerate() {
        finish(rt, input, &heads[i]);
    }
}

/// Receives inputs that have no heads yet to their ends.
pub(crate) fn receive_rests<I: In<Record>, R: Wait>(rt: &R, inputs: &mut [I])
    ensures { Each (Ends I.link I.progress I.Follows) inputs.old inputs.new }
{
    for input in inputs.iter_mut() {
        receive_rest(rt, input);
    }
}
