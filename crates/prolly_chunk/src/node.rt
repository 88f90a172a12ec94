//! A level of nodes.
ghost use Rattle.std.specs.Prelude.{◌≡◌, ◌-◌, ◌≤◌, IfOk};
ghost use Rattle.prolly_entry.specs.Reference.{reference_of};
ghost use Rattle.prolly_chunk.specs.NodeLevel.{NodeBegins, NodeTakes, NodeEnds, one_more_received};
ghost use Rattle.prolly_chunk.specs.NodeLevel.{is_several};

use crate::borrowed::BorrowedEvent;
use crate::chunk::Chunk;
use crate::event::ChunkEvent;
use prolly_entry::{Cut, Ref, Version};
use std::alloc::{AllocError, Global};
use std::marker::Model;

/// How many events of the level below came. At the end it matters only whether they were two or
/// more.
#[derive(Clone, Copy)]
enum Received {
    Nothing,
    Single,
    Several,
}

impl Received {
    fn one_more(self) -> Received
        ensures { result ≡ one_more_received self }
    {
        match self {
            Received::Nothing => Received::Single,
            Received::Single | Received::Several => Received::Several,
        }
    }

    fn is_several(self) -> bool
        ensures { result ≡ is_several self }
    {
        matches!(self, Received::Several)
    }
}

/// The nodes of one level, above events that come one by one. The events of the level below are the
/// children; those of lower levels only pass by.
#[derive(Drop)]
pub struct NodeLevel<C: Cut> {
    cut: C,
    version: Version,
    node: Chunk,
    received: Received,
}

impl<C: Cut> Model for NodeLevel<C> {
    ghost use Rattle.std.specs.Prelude.{◌≤◌};
    ghost use Rattle.prolly_chunk.specs.NodeLevel.{NodeState};

    ghost Value = { NodeState C };

    ghost view = { λ n. record
        { cut = n.cut; version = n.version; node = n.node; received = n.received } };

    ghost invariant = { λ n. 1 ≤ n.node.level };
}

impl<C: Cut> NodeLevel<C> {
    /// The level before the first event. Takes memory for the first byte of a node.
    pub fn new(
        alloc: Global,
        version: Version,
        level: u8,
        cut: C,
    ) -> Result<NodeLevel<C>, AllocError>
        requires { 1 ≤ level }
        ensures { IfOk result (NodeBegins C.cut cut version level) }
    {
        let node = Chunk::new(alloc, level)?;
        Ok(NodeLevel {
            cut,
            version,
            node,
            received: Received::Nothing,
        })
    }

    /// Takes an event, and answers the node that it closes, if it closes one. An event of any other
    /// level than the one below changes nothing.
    ///
    /// Takes time in the size of the child's entry, one look at the cut, and one hash of the
    /// child's bytes where its event does not carry the reference. Keeps the bytes of one node.
    /// After an `Err` the level is of no use.
    pub fn push(
        &mut self,
        alloc: Global,
        event: &ChunkEvent,
    ) -> Result<Option<ChunkEvent>, AllocError>
        ensures { IfOk result (λ closed. NodeTakes C.cut self.old self.new event.now closed) }
    {
        if event.level() != self.node.level() - 1 {
            return Ok(None);
        }
        self.add(alloc, &event.as_borrowed(), &event.reference())
    }

    /// Takes an event whose chunk has this reference, as [`NodeLevel::push`] does. Takes no hash of
    /// the child's bytes.
    pub fn push_known(
        &mut self,
        alloc: Global,
        event: &BorrowedEvent,
        reference: &Ref,
    ) -> Result<Option<ChunkEvent>, AllocError>
        requires { reference.now.0 ≡ reference_of event.now.bytes }
        ensures { IfOk result (λ closed. NodeTakes C.cut self.old self.new event.now closed) }
    {
        if event.level() != self.node.level() - 1 {
            return Ok(None);
        }
        self.add(alloc, event, reference)
    }

    /// Adds the child that an event of the level below stands for.
    fn add(
        &mut self,
        alloc: Global,
        event: &BorrowedEvent,
        reference: &Ref,
    ) -> Result<Option<ChunkEvent>, AllocError>
        requires below { event.now.level ≡ self.old.node.level - 1 }
        requires reference { reference.now.0 ≡ reference_of event.now.bytes }
        ensures { IfOk result (λ closed. NodeTakes C.cut self.old self.new event.now closed) }
    {
        self.received = self.received.one_more();
        // A node of one child would be no step towards a root, so the first child closes none.
        let is_first = !self.node.has_entries();
        let is_boundary = self
            .node
            .add_child(&self.cut, self.version, event, reference)?;
        if is_first || !is_boundary {
            return Ok(None);
        }
        Ok(Some(self.node.take_event(alloc)?))
    }

    /// What is left at a clean end: the open node where it has children, and two or more events of
    /// the level below came. (Of a single one, that one is the root.) Takes no hash.
    pub fn finish(self) -> Option<ChunkEvent>
        ensures { NodeEnds C.cut self result }
    {
        if self.received.is_several() && self.node.has_entries() {
            return Some(ChunkEvent::of(self.node));
        }
        None
    }
}
