//! One round of a merger of many: which heads go, and which one wins.
ghost use Rattle.std.specs.Prelude.{◌≡◌, ◌<◌, ◌≤◌, Some, length, slice_get, slice_set, ◌+◌, take};
ghost use Rattle.prolly_merge.specs.Each.{EachUpto};
ghost use Rattle.prolly_merge.specs.Head.{in_hand, has_key};
ghost use Rattle.prolly_merge.specs.Peeked.{peeked_of, Advances};
ghost use Rattle.prolly_merge.specs.MergeStep.{IsStep, MovesOn};
ghost use Rattle.prolly_merge.specs.Choice.{IsLeast, IsChoice};
ghost use Rattle.prolly_merge.specs.Many.{last_with, IsLeftOut, IsStepWith, IsManyStep};
ghost use Rattle.prolly_merge.specs.declared.heads.MergeStep.TheVariants.{Send};
ghost use Rattle.prolly_merge.specs.declared.heads.Peeked.{Peeked};

use crate::heads::{Head, receive};
use crate::unique::Doubled;
use prolly_entry::{Record, key_order};
use prolly_link::{End, In};
use std::cmp::Ordering;
use std::mem;
use std::sync::Wait;

// Gives the head of input number `at`, and receives its next one.
fn next_of<I: In<Record>, R: Wait>(rt: &R, inputs: &mut [I], heads: &mut [Head], at: usize) -> Head
    requires input { at < length inputs.old }
    requires head { at < length heads.old }
    ensures { (old new : Peeked I) × (slice_get (peeked_of inputs.old heads.old) at ≡ Some old)
        × (peeked_of inputs.new heads.new ≡ slice_set (peeked_of inputs.old heads.old) at new) ×
        (result ≡ old.head)
        × Advances I.link I.progress I.Follows old new ×
        (I.received old.input new.input ≡ in_hand new.head) }
{
    let next = receive(rt, &mut inputs[at]);
    mem::replace(&mut heads[at], next)
}

fn has_key(head: &Head, sent: &Record) -> bool
    ensures { result ≡ has_key sent.now.key head.now }
{
    match head {
        Head::Ready(record) => key_order(record.key(), sent.key()).is_eq(),
        Head::Ended(_) => false,
    }
}

// Lets the inputs before number `at` that have the key of the record that is sent move on: theirs
// are left out. Gives the last one of them.
fn skip_key<I: In<Record>, R: Wait>(
    rt: &R,
    inputs: &mut [I],
    heads: &mut [Head],
    at: usize,
    sent: &Record,
) -> Option<Record>
    requires input { at ≤ length inputs.old }
    requires head { at ≤ length heads.old }
    ensures left_out { result ≡ last_with sent.now.key (take at heads.old) }
    ensures moves { EachUpto (MovesOn I.link I.progress I.Follows I.received sent.now.key)
        (λ old new. new ≡ old) at
        (peeked_of inputs.old heads.old) (peeked_of inputs.new heads.new) }
{
    let mut left_out = None;
    for i in 0..at {
        if has_key(&heads[i], sent) {
            left_out = next_of(rt, inputs, heads, i).into_record();
        }
    }
    left_out
}

// A record that is sent, and the last one of those with its key that are left out for it.
#[derive(Drop)]
struct Taken {
    record: Record,
    left_out: Option<Record>,
}

// Takes the record of the chosen input. The others that have its key move on too.
fn take<I: In<Record>, R: Wait>(rt: &R, least: Least, inputs: &mut [I], heads: &mut [Head]) -> Taken
    requires inputs { length heads.old ≡ length inputs.old }
    requires least { IsLeast heads.old (Some least) }
    ensures step { IsStep I.link I.progress I.Follows I.received (peeked_of inputs.old heads.old)
        (Send result.record) (peeked_of inputs.new heads.new) }
    ensures left_out { IsLeftOut heads.old result.record result.left_out }
{
    let record = match next_of(rt, inputs, heads, least.at) {
        Head::Ready(record) => record,
        Head::Ended(_) => unreachable!(),
    };
    if least.is_shared {
        let left_out = skip_key(rt, inputs, heads, least.at, &record);
        return Taken { record, left_out };
    }
    Taken {
        record,
        left_out: None,
    }
}

/// What comes of a key that several inputs have.
#[derive(Clone, Copy)]
pub(crate) enum SharedKey {
    /// The record of the last input is sent, and the others are left out.
    LastWins,
    /// It stops the merger.
    Refused,
}

/// A merger of many sends a record, stops with an end, or refuses a key that several inputs have.
#[derive(Drop)]
pub(crate) enum ManyStep {
    Send(Record),
    Stop(End),
    Refuse(Doubled),
}

// What is done with a record that was taken.
fn step_with(taken: Taken, shared: SharedKey) -> ManyStep
    ensures { IsStepWith taken shared result }
{
    match (shared, taken.left_out) {
        (SharedKey::Refused, Some(first)) => ManyStep::Refuse(Doubled {
            first,
            second: taken.record,
        }),
        _ => ManyStep::Send(taken.record),
    }
}

/// The next record of the inputs, which they give away, or why there is none.
pub(crate) fn next_of_many<I: In<Record>, R: Wait>(
    rt: &R,
    shared: SharedKey,
    inputs: &mut [I],
    heads: &mut [Head],
) -> ManyStep
    requires { length heads.old ≡ length inputs.old }
    ensures { IsManyStep I.link I.progress I.Follows I.received shared
        (peeked_of inputs.old heads.old) result (peeked_of inputs.new heads.new) }
{
    match choose(heads) {
        Choice::Take(least) => step_with(take(rt, least, inputs, heads), shared),
        Choice::Stop(end) => ManyStep::Stop(end),
    }
}

/// The last head of the least key, and whether another one before it has the key too.
#[derive(Clone, Copy)]
pub(crate) struct Least {
    pub(crate) at: usize,
    pub(crate) is_shared: bool,
}

/// The input whose record is sent next, or why there is none.
#[derive(Drop)]
pub(crate) enum Choice {
    Take(Least),
    Stop(End),
}

// The least of the heads up to and with number `at`, which has this record, where that of those
// before it is known.
fn least_with(heads: &[Head], least: Option<Least>, at: usize, next: &Record) -> Least
    requires head { slice_get heads.now at ≡ Some (Head.Ready next.now) }
    requires least { IsLeast (take at heads.now) least }
    ensures { IsLeast (take (at + 1) heads.now) (Some result) }
{
    let alone = Least {
        at,
        is_shared: false,
    };
    let Some(least) = least else {
        return alone;
    };
    let Head::Ready(other) = &heads[least.at] else {
        unreachable!()
    };
    match key_order(next.key(), other.key()) {
        Ordering::Less => alone,
        Ordering::Equal => Least {
            at,
            is_shared: true,
        },
        Ordering::Greater => least,
    }
}

/// Finds the last head of the least key, by one comparison a head. A fault stops the merger before
/// any other record is sent: what is left has greater keys.
pub(crate) fn choose(heads: &[Head]) -> Choice
    ensures { IsChoice heads.now result }
{
    let mut least = None;
    for (i, head) in heads.iter().enumerate() {
        match head {
            Head::Ready(record) => least = Some(least_with(heads, least, i, record)),
            Head::Ended(End::Clean) => {}
            Head::Ended(End::Fault(fault)) => return Choice::Stop(End::Fault(*fault)),
        }
    }
    match least {
        Some(least) => Choice::Take(least),
        None => Choice::Stop(End::Clean),
    }
}
