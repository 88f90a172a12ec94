//! The pairs of an old tree, with changes laid over them, into a level of leaves.
ghost use Rattle.std.specs.Prelude.{◌≡◌, [], ◌∷◌, true, false, OnOk, OnErr, IfErr};
ghost use Rattle.prolly_link.specs.declared.message.End.TheVariants.{Clean};
ghost use Rattle.prolly_chunk.specs.LeafLevel.{LeafPasses};
ghost use Rattle.prolly_merge.specs.Peeked.{Advances};
ghost use Rattle.prolly_merge.specs.Head.{IsHeld, in_hand};
ghost use Rattle.prolly_merge.specs.declared.heads.Head.TheVariants.{Ended};
ghost use Rattle.prolly_tree.specs.Tree.{last_key};
ghost use Rattle.prolly_apply.specs.Taking.{Comes, IsBehind, IsChange, IsCutAs, IsDecided, Stands};
ghost use Rattle.prolly_apply.specs.Taking.{StopsInFront};
ghost use Rattle.prolly_apply.specs.Taking.{StopsInRest, TakesChange, TakesFront, TakesRest};
ghost use Rattle.prolly_apply.specs.Taking.{closes_leaf};

use crate::old_leaf::OldLeaf;
use crate::stop::Stop;
use prolly_chunk::{ChunkEvent, LeafLevel};
use prolly_entry::{Cut, Pair, Record, key_order};
use prolly_link::{End, In, Out, RunFault};
use prolly_look_up::Pairs;
use prolly_merge::{Head, Peeked};
use prolly_stage::{send_event, take_decided_pair, take_pair};
use std::alloc::{AllocError, Global};
use std::cmp::Ordering;
use std::sync::Wait;

/// Where the next change stands beside a key.
#[derive(Clone, Copy, Debug)]
pub(crate) enum Standing {
    Below,
    Same,
    /// Above the key, or the changes ended clean.
    Behind,
    /// They ended with this fault.
    Failed(RunFault),
}

/// Where this head of the changes stands beside a key.
fn standing_of(head: &Head, key: &[u8]) -> Standing
    ensures { Stands key.now head.now result }
{
    match head {
        Head::Ready(change) => match key_order(change.key(), key) {
            Ordering::Less => Standing::Below,
            Ordering::Equal => Standing::Same,
            Ordering::Greater => Standing::Behind,
        },
        Head::Ended(End::Clean) => Standing::Behind,
        Head::Ended(End::Fault(fault)) => Standing::Failed(*fault),
    }
}

/// What the changes gave last.
#[derive(Clone, Copy, Debug)]
enum Coming {
    Change,
    Clean,
    Failed(RunFault),
}

/// What this head of the changes is.
fn coming_of(head: &Head) -> Coming
    ensures { Comes head.now result }
{
    match head {
        Head::Ready(_) => Coming::Change,
        Head::Ended(End::Clean) => Coming::Clean,
        Head::Ended(End::Fault(fault)) => Coming::Failed(*fault),
    }
}

/// Whether it is known that no change stands at the key or before it.
fn is_behind(head: &Head, key: &[u8]) -> bool
    ensures { result ≡ true → IsBehind key.now head.now }
{
    matches!(standing_of(head, key), Standing::Behind)
}

/// Takes the change in hand: the pair that it puts, if it puts one. An `Err` has sent nothing.
fn take_change<C: Cut, I: In<Record>, O: Out<ChunkEvent>, R: Wait>(
    rt: &R,
    alloc: Global,
    level: &mut LeafLevel<C>,
    changes: &mut Peeked<I>,
    out: &mut O,
) -> Result<(), AllocError>
    requires { IsChange changes.old.head }
    ensures advances { Advances I.link I.progress I.Follows changes.old changes.new }
    ensures link { O.link out.new ≡ O.link out.old }
    ensures got { I.received changes.old.input changes.new.input ≡ in_hand changes.new.head }
    ensures ok { OnOk result (TakesChange C.cut level.old level.new (O.sent out.old)
        (O.sent out.new) changes.old.head) }
    ensures err { OnErr result (O.sent out.new ≡ O.sent out.old) }
{
    let Head::Ready(change) = changes.next(rt) else {
        unreachable!()
    };
    match change.into_pair() {
        None => Ok(()),
        Some(pair) => take_pair(rt, alloc, level, out, pair),
    }
}

/// Takes a pair of the old tree, of which it is known whether it is a boundary, and before it the
/// changes below its key. A change of its key takes its place.
fn take_old_pair<C: Cut, I: In<Record>, O: Out<ChunkEvent>, R: Wait>(
    rt: &R,
    alloc: Global,
    level: &mut LeafLevel<C>,
    changes: &mut Peeked<I>,
    out: &mut O,
    pair: Pair,
    is_boundary: bool,
) -> Result<(), Stop>
    requires { IsHeld changes.old.head (I.progress changes.old.input) }
    ensures advances { Advances I.link I.progress I.Follows changes.old changes.new }
    ensures link { O.link out.new ≡ O.link out.old }
    ensures ok { OnOk result (TakesFront C.cut (IsDecided is_boundary pair) (pair ∷ []) level.old level.new
        (O.sent out.old) (O.sent out.new) changes.old.head
        (I.received changes.old.input changes.new.input) changes.new.head) }
    ensures err { IfErr result (λ stop. StopsInFront C.cut (IsDecided is_boundary pair) (pair ∷ []) level.old
        (O.sent out.old) stop (O.sent out.new) changes.old.head
        (I.received changes.old.input changes.new.input) changes.new.head) }
{
    for _ in rt.forever() {
        match standing_of(&changes.head, pair.key()) {
            Standing::Below => take_change(rt, alloc, level, changes, out)?,
            Standing::Same => return Ok(take_change(rt, alloc, level, changes, out)?),
            Standing::Behind => {
                return Ok(take_decided_pair(rt, alloc, level, out, pair, is_boundary)?);
            }
            Standing::Failed(fault) => return Err(Stop::Fault(fault)),
        }
    }
    unreachable!()
}

/// Takes all changes that are left, where nothing is left of the old tree.
pub(crate) fn take_rest<C: Cut, I: In<Record>, O: Out<ChunkEvent>, R: Wait>(
    rt: &R,
    alloc: Global,
    level: &mut LeafLevel<C>,
    changes: &mut Peeked<I>,
    out: &mut O,
) -> Result<(), Stop>
    requires { IsHeld changes.old.head (I.progress changes.old.input) }
    ensures advances { Advances I.link I.progress I.Follows changes.old changes.new }
    ensures link { O.link out.new ≡ O.link out.old }
    ensures ended { OnOk result (changes.new.head ≡ Ended Clean) }
    ensures ok { OnOk result (TakesRest C.cut level.old level.new (O.sent out.old) (O.sent out.new)
        changes.old.head (I.received changes.old.input changes.new.input) changes.new.head) }
    ensures err { IfErr result (λ stop. StopsInRest C.cut level.old (O.sent out.old) stop
        (O.sent out.new) changes.old.head (I.received changes.old.input changes.new.input)
        changes.new.head) }
{
    for _ in rt.forever() {
        match coming_of(&changes.head) {
            Coming::Change => take_change(rt, alloc, level, changes, out)?,
            Coming::Clean => return Ok(()),
            Coming::Failed(fault) => return Err(Stop::Fault(fault)),
        }
    }
    unreachable!()
}

/// Takes a leaf of the old tree, with the changes laid over it. It goes on whole where it ends with
/// a boundary, no leaf is open, and it is known that no change stands before its last key or at it.
pub(crate) fn take_leaf<C: Cut, I: In<Record>, O: Out<ChunkEvent>, R: Wait>(
    rt: &R,
    alloc: Global,
    level: &mut LeafLevel<C>,
    changes: &mut Peeked<I>,
    out: &mut O,
    leaf: OldLeaf,
    ends: bool,
) -> Result<(), Stop>
    requires { IsHeld changes.old.head (I.progress changes.old.input) }
    ensures advances { Advances I.link I.progress I.Follows changes.old changes.new }
    ensures link { O.link out.new ≡ O.link out.old }
    ensures ok { OnOk result (TakesFront C.cut (IsCutAs ends leaf) leaf level.old level.new
        (O.sent out.old) (O.sent out.new) changes.old.head
        (I.received changes.old.input changes.new.input) changes.new.head) }
    ensures err { IfErr result (λ stop. StopsInFront C.cut (IsCutAs ends leaf) leaf level.old
        (O.sent out.old) stop (O.sent out.new) changes.old.head
        (I.received changes.old.input changes.new.input) changes.new.head) }
{
    if passes(level, &changes.head, &leaf, ends) {
        return Ok(send_event(rt, out, leaf.into_event())?);
    }
    take_pairs(rt, alloc, level, changes, out, leaf.pairs(), ends)
}

/// Whether a leaf goes on whole, and lets it pass the level.
fn passes<C: Cut>(level: &mut LeafLevel<C>, head: &Head, leaf: &OldLeaf, ends: bool) -> bool
    ensures yes { result ≡ true → (ends ≡ true) × IsBehind (last_key leaf.now) head.now ×
        LeafPasses C.cut level.old level.new }
    ensures no { result ≡ false → level.new ≡ level.old }
{
    ends && is_behind(head, leaf.last_key()) && level.pass()
}

/// Takes pairs of a leaf of the old tree, with the changes laid over them. None of them is hashed: the
/// last one is a boundary if the leaf ends with one, and no other one is.
fn take_pairs<C: Cut, I: In<Record>, O: Out<ChunkEvent>, R: Wait>(
    rt: &R,
    alloc: Global,
    level: &mut LeafLevel<C>,
    changes: &mut Peeked<I>,
    out: &mut O,
    mut pairs: Pairs<'_>,
    ends: bool,
) -> Result<(), Stop>
    requires { IsHeld changes.old.head (I.progress changes.old.input) }
    ensures advances { Advances I.link I.progress I.Follows changes.old changes.new }
    ensures link { O.link out.new ≡ O.link out.old }
    ensures ok { OnOk result (TakesFront C.cut (IsCutAs ends pairs.entry) pairs.entry level.old level.new
        (O.sent out.old) (O.sent out.new) changes.old.head
        (I.received changes.old.input changes.new.input) changes.new.head) }
    ensures err { IfErr result (λ stop. StopsInFront C.cut (IsCutAs ends pairs.entry) pairs.entry level.old
        (O.sent out.old) stop (O.sent out.new) changes.old.head
        (I.received changes.old.input changes.new.input) changes.new.head) }
{
    while let Some((key, value)) = pairs.next() {
        let pair = Pair::copy_of(alloc, key, value)?;
        let is_boundary = closes_leaf(ends, &pairs);
        take_old_pair(rt, alloc, level, changes, out, pair, is_boundary)?;
    }
    Ok(())
}

/// Whether the pair of a leaf is a boundary behind which these are left.
fn closes_leaf(ends: bool, left: &Pairs<'_>) -> bool
    ensures { result ≡ closes_leaf ends left.now }
{
    ends && left.is_empty()
}
