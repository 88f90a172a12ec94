//! What the chunks of a file that were read so far say of those that must follow.
ghost use Rattle.std.specs.Prelude.{◌≡◌, ◌≢◌, ◌<◌, ℕ, [], ◌∷◌, true, false, None, List};
ghost use Rattle.std.specs.Prelude.{IfOk, IfErr, OnOk};
ghost use Rattle.prolly_check.specs.Digests.{IsDigest};
ghost use Rattle.prolly_check.specs.Follower.{EndsWith, Follows, IsAlike, TakesNext, place_of_end};
ghost use Rattle.prolly_look_up.specs.HeldPairs.{bytes_in};

use crate::verdict::chunks_ahead::ChunksAhead;
use crate::verdict::digests::ChunkDigest;
use crate::verdict::fault::CheckFault;
use crate::verdict::levels::{close_all, close_behind, new_nodes, pass_leaf};
use prolly_chunk::{ChunkEvent, NodeLevel};
use prolly_entry::{Sha512Cut, Version};
use std::alloc::{AllocError, Global};
use std::collections::VecDeque;

/// What is kept of the chunks of a file that were read so far, to know which must follow: the open
/// node of each level, and the nodes that have closed and were not read yet.
///
/// In a file a node stands just behind its last child. So as long as leaves are whole, each chunk
/// that was read tells whether a node must follow, and which. A leaf that is not whole, and a node
/// that is not due, can only belong to the end of the map. From there on all chunks are known.
#[derive(Drop)]
pub(crate) struct Follower {
    pub(crate) cut: Sha512Cut,
    pub(crate) version: Version,
    nodes: Vec<NodeLevel<Sha512Cut>>,
    /// The nodes that must follow, in this order.
    due: VecDeque<ChunkEvent>,
    /// The number of the chunk that belongs to the end, once one was read.
    ending: Option<usize>,
}

impl Follower {
    /// Before the first chunk of a file. Takes memory for an open node of each level.
    pub(crate) fn new(
        alloc: Global,
        cut: Sha512Cut,
        version: Version,
    ) -> Result<Follower, AllocError>
        ensures { IfOk result (λ follower. Follows [] follower × (follower.cut ≡ cut) ×
            (follower.version ≡ version)) }
    {
        Ok(Follower {
            cut,
            version,
            nodes: new_nodes(alloc, cut, version)?,
            due: VecDeque::new(alloc),
            ending: None,
        })
    }

    /// Takes the next chunk, of this number, or tells the first chunk that is out of its place.
    ///
    /// Takes no hash of the chunk, nor of a node that it closes where that is found in its place in
    /// `next`, the chunks that follow. After an `Err` the follower is of no use.
    pub(crate) fn take(
        &mut self,
        alloc: Global,
        number: usize,
        chunk: &[u8],
        digest: ChunkDigest,
        next: &ChunksAhead,
    ) -> Result<(), CheckFault>
        requires digest { IsDigest self.old.version self.old.cut chunk.now digest }
        ensures takes { TakesNext self.old self.new number chunk.now result }
        ensures alike { IsAlike self.old self.new }
        ensures unread { IfErr result (λ fault. fault ≢ CheckFault.Read) }
    {
        match self.ending {
            None => {
                if self.due.is_empty() {
                    return self.go_on(alloc, number, chunk, digest, next);
                }
                self.expect(number, chunk)
            }
            Some(from) => {
                if digest.pairs.count > 0 {
                    return Err(CheckFault::NotCanonical { chunk: from });
                }
                self.expect(number, chunk)
            }
        }
    }

    /// At which chunk the file parts from these where the next one, of this number, is out of its
    /// place and pairs follow it.
    pub(crate) fn place_of_end(&self, number: usize) -> usize
        ensures { result ≡ place_of_end self.now.ending number }
    {
        self.ending.unwrap_or(number)
    }

    /// Tests that so many chunks are all of the file, or tells that one more must follow.
    pub(crate) fn finish(mut self, alloc: Global, number: usize) -> Result<(), CheckFault>
        ensures ends { EndsWith self number result }
        ensures unread { IfErr result (λ fault. fault ≢ CheckFault.Read) }
    {
        if self.ending.is_some() {
            return test_none_due(&self.due, number);
        }
        if !self.due.is_empty() {
            return Err(CheckFault::NotCanonical { chunk: number });
        }
        close_behind(
            alloc,
            self.cut,
            number,
            &mut self.nodes,
            &ChunksAhead::none(),
            &mut self.due,
        )?;
        test_none_due(&self.due, number)
    }

    /// Takes the next chunk where none is due: a whole leaf, or the first chunk of the end.
    fn go_on(
        &mut self,
        alloc: Global,
        number: usize,
        chunk: &[u8],
        digest: ChunkDigest,
        next: &ChunksAhead,
    ) -> Result<(), CheckFault>
        requires digest { IsDigest self.old.version self.old.cut chunk.now digest }
        requires going { self.old.ending ≡ None }
        requires none { self.old.due.items ≡ [] }
        ensures takes { TakesNext self.old self.new number chunk.now result }
        ensures alike { IsAlike self.old self.new }
        ensures unread { IfErr result (λ fault. fault ≢ CheckFault.Read) }
    {
        if digest.pairs.is_whole_leaf {
            let event = digest.pairs.event(self.version, chunk);
            pass_leaf(
                alloc,
                &mut self.nodes,
                &event,
                &digest.reference,
                next,
                &mut self.due,
            )?;
            return Ok(());
        }
        if digest.pairs.has_boundary {
            return Err(CheckFault::NotCanonical { chunk: number });
        }
        self.end(alloc, number, chunk, digest, next)
    }

    /// Takes the first chunk of the end, which is no whole leaf and has no boundary: the last leaf,
    /// or a node that only the end closes.
    fn end(
        &mut self,
        alloc: Global,
        number: usize,
        chunk: &[u8],
        digest: ChunkDigest,
        next: &ChunksAhead,
    ) -> Result<(), CheckFault>
        requires digest { IsDigest self.old.version self.old.cut chunk.now digest }
        requires going { self.old.ending ≡ None }
        requires none { self.old.due.items ≡ [] }
        requires open { digest.pairs.has_boundary ≡ false }
        ensures takes { TakesNext self.old self.new number chunk.now result }
        ensures alike { IsAlike self.old self.new }
        ensures unread { IfErr result (λ fault. fault ≢ CheckFault.Read) }
    {
        self.ending = Some(number);
        if digest.pairs.count == 0 {
            close_behind(
                alloc,
                self.cut,
                number,
                &mut self.nodes,
                next,
                &mut self.due,
            )?;
            return self.expect(number, chunk);
        }
        let event = digest.pairs.event(self.version, chunk);
        pass_leaf(
            alloc,
            &mut self.nodes,
            &event,
            &digest.reference,
            next,
            &mut self.due,
        )?;
        close_all(alloc, &mut self.nodes, next, &mut self.due)?;
        Ok(())
    }

    /// Takes the next chunk where it is known: the first that is due.
    fn expect(&mut self, number: usize, chunk: &[u8]) -> Result<(), CheckFault>
        ensures due { OnOk result (bytes_in self.old.due.items ≡
            chunk.now ∷ bytes_in self.new.due.items) }
        ensures other { IfErr result (λ fault. (fault ≡ CheckFault.NotCanonical number) ×
            ((rest : List (List ℕ)) → bytes_in self.old.due.items ≡ chunk.now ∷ rest → ⊥)) }
        ensures alike { IsAlike self.old self.new × (self.new.nodes ≡ self.old.nodes) ×
            (self.new.ending ≡ self.old.ending) }
    {
        let Some(event) = self.due.pop_front() else {
            return Err(CheckFault::NotCanonical { chunk: number });
        };
        if event.bytes() != chunk {
            return Err(CheckFault::NotCanonical { chunk: number });
        }
        Ok(())
    }
}

/// Tests that no chunk must follow so many.
fn test_none_due(due: &VecDeque<ChunkEvent>, number: usize) -> Result<(), CheckFault>
    ensures none { OnOk result (due.now.items ≡ []) }
    ensures some { IfErr result (λ fault. (fault ≡ CheckFault.NotCanonical number) ×
        (due.now.items ≢ [])) }
{
    if due.is_empty() {
        return Ok(());
    }
    Err(CheckFault::NotCanonical { chunk: number })
}
